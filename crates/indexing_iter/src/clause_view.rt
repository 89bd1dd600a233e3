// A view of one clause: the code slice and the place where the clause starts, in place of scryer-prolog's IndexedClauseView.
ghost use Rattle.std.specs.Prelude.{◌≡◌, drop};
ghost use Rattle.records.specs.Records.{records_of};
ghost use Rattle.indexing_iter.specs.Classes.{class_of};
ghost use Rattle.indexing_iter.specs.Keys.{key_in};

use crate::OptArgIndexKey;

#[derive(Clone, Copy)]
pub struct ClauseView<'a> {
    pub code: &'a [u8],
    pub at: usize,
}

impl<'a> ClauseView<'a> {
    // The view of the clause that starts at a place.
    pub fn new(code: &'a [u8], at: usize) -> Self
        ensures { (result.code ≡ code.entry) × (result.at ≡ at) }
    {
        ClauseView { code, at }
    }

    // The key at argument j that the records from the place on give.
    pub fn key(self, j: u32) -> OptArgIndexKey
        ensures { result ≡ key_in class_of (drop self.entry.at (records_of self.entry.code.now)) j }
    {
        let end = records::capacity(self.code);
        crate::key_in(self.code, self.at, end, j)
    }
}

// The key at argument j of the clause that starts at a place, read through its view.
pub fn key_at(code: &[u8], at: usize, j: u32) -> OptArgIndexKey
    ensures { result ≡ key_in class_of (drop at (records_of code.now)) j }
{
    ClauseView::new(code, at).key(j)
}
