// A call that passed its check.
ghost use Rattle.std.specs.Prelude.{◌≡◌};
ghost use Rattle.indexing_iter.specs.Refusals.{passed};
ghost use Rattle.indexing_scan.specs.Calls.{check_call};

use indexing_iter::program::Program;

// A call of a predicate, where 10 does not apply.
#[derive(Clone, Copy)]
pub struct Query<'a> {
    pub program: Program<'a>,
    pub call: &'a [u8],
    pub ghost checked: { check_call program.settings.arity call.now ≡ passed },
}
