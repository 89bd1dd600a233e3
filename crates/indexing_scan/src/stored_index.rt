// An index at the front of a buffer.
ghost use Rattle.std.specs.Prelude.{◌≤◌, length};
ghost use Rattle.records.specs.Records.{records_of};

// The first count records of a buffer.
#[derive(Clone, Copy)]
pub struct Stored<'a> {
    pub index: &'a [u8],
    pub count: usize,
    pub ghost within: { count ≤ length (records_of index.now) },
}
