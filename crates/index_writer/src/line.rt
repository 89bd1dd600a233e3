// The clauses of a line of a checked program, and the argument by whose keys they go in buckets.
ghost use Rattle.std.specs.Prelude.{◌≤◌, length};
ghost use Rattle.index_writer.specs.Choices.{AllKnown};

use indexing_iter::program::Program;

// The offsets are those of clauses, 1,024 at most; argument arg is one of the predicate's.
#[derive(Clone, Copy)]
pub struct Line<'p, 'a> {
    pub program: Program<'p>,
    pub offs: &'a [u32],
    pub arg: u32,
    pub ghost all_known: { AllKnown program.starts.now offs.now },
    pub ghost arg_bound: { (1 ≤ arg) × (arg ≤ program.settings.arity) },
    pub ghost few: { length offs.now ≤ 1024 },
}
