// The first line of an index, which has all clauses of the code.
ghost use Rattle.std.specs.Prelude.{◌≡◌, length, replicate};
ghost use Rattle.indexing_iter.specs.Clauses.{offsets_of};
ghost use Rattle.index_writer.specs.Filling.{Filled};

use crate::clauses::{Clauses, Columns};
use crate::columns;
use crate::columns::ColumnArrays;
use crate::line::Line;
use indexing_iter::program::Build;

// Arrays for its columns, and for the offsets and tags of its clauses.
#[derive(Drop)]
pub struct FirstLine {
    columns: ColumnArrays,
    offs: [u32; 1024],
    tags: [u8; 1024],
}

impl FirstLine {
    // All places are 0.
    pub fn new() -> Self
        ensures choices { (result.offs ≡ replicate 1024 0) × (result.tags ≡ replicate 1024 0) }
        ensures keys { (result.columns.heads ≡ replicate 1024 0) × (result.columns.bits ≡ replicate 1024 0) × (result.columns.opens ≡ replicate 32768 0) }
        ensures leaders { (result.columns.leaders ≡ replicate 1024 0) × (result.columns.sizes ≡ replicate 1024 0) × (result.columns.whole ≡ replicate 1024 0) }
    {
        FirstLine {
            columns: ColumnArrays::new(),
            offs: [0; 1024],
            tags: [0; 1024],
        }
    }

    // The clauses of checked code with the offsets and tags that they have at first, as one bucket and by their keys at the switch's argument: of
    // arrays for 1,024 clauses they take as much as there are clauses.
    pub fn fill<'a>(&'a mut self, build: &Build) -> (Clauses<'a>, Columns<'a>)
        ensures { Filled build.now.program (offsets_of build.now.program.starts.now) (replicate (length build.now.program.starts.now) 7) build.now.c result.0 result.1 }
    {
        let program = build.program;
        let m = program.starts.len();
        let FirstLine {
            columns,
            offs,
            tags,
        } = self;
        let offs = &mut offs[..m];
        let tags = &mut tags[..m];
        columns::start_choices(program.starts, offs, tags);
        let line = Line {
            program,
            offs,
            arg: build.c,
        };
        columns.fill(&line, tags)
    }
}
