// The turn at an on-demand table while expansions are stored: the switch and its lines are written, or nothing is stored any more.
// The lent buffers and the walk are parameters and no struct, as in turns.rt.
ghost use Rattle.std.specs.Prelude.{◌≡◌, length, true};
ghost use Rattle.indexing_scan.specs.Places.{first_offset, offsets_at};
ghost use Rattle.indexing_walk.specs.Walking.{stored_in, StandsIn, Demands, WentIn};

use crate::Walking;
use indexing_builder::expansion::{Grown, OnDemand};
use indexing_iter::program::Program;

// The expansion with two lists as long as the line, whose offsets start at place q: the walk looks again at its place, or stores nothing
// any more.
fn store_line(
    program: &Program,
    index: &mut [u8],
    w: Walking,
    a: u32,
    q: usize,
    list: &mut [u32],
    tags: &mut [u8],
) -> Walking
    requires stands { StandsIn program.now index.old w }
    requires list_len { (length tags.old ≡ length list.old) × (w.storing ≡ true) }
    requires q_value { (q ≡ first_offset (stored_in index.old w) w.at) × (length list.old ≡ offsets_at (stored_in index.old w) q) }
    requires table { Demands index.old w a }
    ensures { WentIn program.now index.old w a index.new result }
{
    index_writer::columns::read_choices(index, q, list, tags);
    let table = OnDemand {
        arg: a,
        at: w.at,
        count: w.count,
        line: w.line,
        lines: w.lines,
        capacity: indexing_builder::capacity(index),
    };
    let x = indexing_builder::expansion::indices_of_arg(program, index, table, list, tags);
    let Some(Grown { count, lines }) = x else {
        // From here on nothing is stored.
        return Walking {
            storing: false,
            ..w
        };
    };
    // The walk is at the same place of the expanded index, at the table for argument a.
    Walking {
        from: a,
        count,
        lines,
        ..w
    }
}

// The turn at an on-demand table for argument a while expansions are stored.
pub fn turn_store(
    program: &Program,
    index: &mut [u8],
    w: Walking,
    a: u32,
    list: &mut [u32; 1024],
    tags: &mut [u8; 1024],
) -> Walking
    requires stands { StandsIn program.now index.old w }
    requires on { w.storing ≡ true }
    requires table { Demands index.old w a }
    ensures { WentIn program.now index.old w a index.new result }
{
    let stored = w.stored(index);
    let q = indexing_scan::stored::first_offset(&stored, w.at);
    let m = indexing_scan::stored::count_offsets(&stored, q);
    store_line(program, index, w, a, q, &mut list[..m], &mut tags[..m])
}
