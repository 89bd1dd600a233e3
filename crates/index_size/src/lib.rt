// The size of the index that the builder would write: how many records it takes, whatever the room.
// Code, starts, settings and c stand one by one where nothing is checked yet: a Build is what they are afterwards.
#![tactic(auto)]

ghost use Rattle.std.specs.Prelude.{◌≡◌};
ghost use Rattle.indexing_iter.specs.Classes.{class_of};
ghost use Rattle.indexing.specs.Lines.{size};
ghost use Rattle.indexing.specs.Builder.{index_of, size_call};
ghost use Rattle.index_size.specs.Answer.{sized_of};

use index_writer::first_line::FirstLine;
use index_writer::rooms;
use indexing_iter::Settings;
use indexing_iter::program::Build;
use indexing_iter::refusal::Refusal;

// The size of the index of checked code.
fn size_checked(build: &Build) -> usize
    ensures { result ≡ size (index_of class_of build.now.program.code.now build.now.program.starts.now build.now.program.settings build.now.c) }
{
    let mut first = FirstLine::new();
    let (whole, columns) = first.fill(build);
    rooms::index_room(&whole.tables.opens, &columns.lines.rooms).count
}

// The record count of the index of the code's clauses, its first switch on argument c; it refuses with the numbers 1 to 8 of the builder.
pub fn index_size(code: &[u8], starts: &[u32], settings: Settings, c: u64) -> Result<usize, Refusal>
    ensures { sized_of result ≡ size_call class_of code.now starts.now settings c }
{
    let build = Build::check(code, starts, settings, c)?;
    Ok(size_checked(&build))
}
