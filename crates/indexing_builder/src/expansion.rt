// The expansion of an on-demand table on the buffer: its room is counted first, the tail moves up, and new lines go to the end.
// Placed t is asked of three functions: it is of a table and of the lent index that is written, which no struct holds together.
ghost use Rattle.std.specs.Prelude.{◌≡◌, [], ◌+◌, ◌-◌, ◌*◌, ◌≤◌, length};
ghost use Rattle.records.specs.Records.{records_of, Wrote};
ghost use Rattle.records.specs.Moves.{spliced};
ghost use Rattle.index_writer.specs.Written.{dead_by, switch_in, new_lines_by};
ghost use Rattle.indexing.specs.Expanding.{lines_made};
ghost use Rattle.indexing_builder.specs.Expansion.{Demanded, expanded_of, expand_call, Placed, Expansion};

use index_writer::argument::Argument;
use index_writer::clauses::{Buckets, Columns, Entries, NewLines, Tables};
use index_writer::columns::ColumnArrays;
use index_writer::line::Line;
use index_writer::{buckets, later_tables, lines, rooms};
use indexing_iter::group::Group;
use indexing_iter::program::Program;

// An on-demand table, and where it stands: for argument arg, its record at place at of count records, in line number line of lines, in an
// index that may grow to capacity records.
#[derive(Clone, Copy, Debug, PartialEq, Eq)]
pub struct OnDemand {
    pub arg: u32,
    pub at: usize,
    pub count: usize,
    pub line: u32,
    pub lines: u32,
    pub capacity: usize,
}

// The records and lines of an index after an expansion.
#[derive(Clone, Copy, Debug, PartialEq, Eq)]
pub struct Grown {
    pub count: usize,
    pub lines: u32,
}

// How many lines a switch makes.
fn count_new_lines(buckets: &Buckets) -> u32
    requires few { length buckets.now.heads.leaders.now ≤ 1024 }
    ensures value { result ≡ lines_made buckets.now.heads.leaders.now buckets.now.heads.heads.now buckets.now.heads.dynamic }
    ensures upper_bound { result ≤ 3 * length buckets.now.heads.leaders.now + 1 }
{
    let lists = buckets::list_lines(buckets);
    let structures = buckets::count_lines(buckets, u32::from(Group::Structures));
    let literals = buckets::count_lines(buckets, u32::from(Group::Literals));
    lists + structures + literals
}

// Puts the switch in place of the table t, and its lines behind all: the switch takes k records more than the table, and distances grow by
// (lines before) - (own line) - 1.
pub fn write_switch(index: &mut [u8], t: OnDemand, k: usize, columns: &Columns)
    requires placed { Placed t columns.now.lines.rooms.switched.settings.arity index.old }
    requires line_len { length (switch_in columns.now (t.lines - t.line)) ≡ k + 1 }
    requires lines_bound { t.count + k + length (new_lines_by columns.now.lines t.lines) ≤ t.capacity }
    ensures { Wrote index.old index.new (spliced (records_of index.old) t.at t.count (switch_in columns.now (t.lines - t.line)) (new_lines_by columns.now.lines t.lines)) }
{
    let NewLines { rooms, offs, .. } = columns.lines;
    let entries = Entries {
        buckets: rooms.buckets,
        bits: columns.bits,
        offs,
    };
    let by = t.lines - t.line - 1;
    records::open_gap(index, t.at, t.count, k);
    // The argument is at most 32: it is a u16.
    buckets::put_switch(index, t.at, &entries, rooms.switched.arg as u16, by);
    lines::put_new_lines(index, t.count + k, &columns.lines, t.lines);
}

// The table t becomes dead, where there is room.
fn expand_dead(index: &mut [u8], t: OnDemand, whole: &Tables) -> Option<Grown>
    requires placed { Placed t 32 index.old }
    ensures { Expansion result t index.old index.new (dead_by whole.now t.arg) [] 0 }
{
    let arg = Argument { number: t.arg };
    let more = later_tables::dead_room(&whole.opens, arg) - 1;
    let total = t.count + more;
    if t.capacity < total {
        return None;
    }
    records::open_gap(index, t.at, t.count, more);
    later_tables::put_dead(index, t.at, whole, arg);
    Some(Grown {
        count: total,
        lines: t.lines,
    })
}

// The table t becomes the switch, where there is room for it and its lines.
fn expand_switch(index: &mut [u8], t: OnDemand, columns: &Columns) -> Option<Grown>
    requires placed { Placed t columns.now.lines.rooms.switched.settings.arity index.old }
    ensures { Expansion result t index.old index.new (switch_in columns.now (t.lines - t.line)) (new_lines_by columns.now.lines t.lines) (lines_made columns.now.lines.rooms.buckets.heads.leaders.now columns.now.lines.rooms.buckets.heads.heads.now columns.now.lines.rooms.buckets.heads.dynamic) }
{
    let rooms = &columns.lines.rooms;
    let k = buckets::switch_room(&rooms.buckets.heads) - 1;
    let count = t.count + k + rooms::new_lines_room(rooms);
    if t.capacity < count {
        return None;
    }
    write_switch(index, t, k, columns);
    let made = count_new_lines(&rooms.buckets);
    Some(Grown {
        count,
        lines: t.lines + made,
    })
}

// Expands the table t of the line whose offsets and tags are given: it becomes the switch on its argument or, where some clause is open
// there, dead. The size is known before anything is written; where it exceeds the capacity nothing is, and the answer is None.
pub fn indices_of_arg(
    program: &Program,
    index: &mut [u8],
    t: OnDemand,
    offs: &[u32],
    tags: &[u8],
) -> Option<Grown>
    requires { Demanded t program.now.settings program.now.code.now program.now.starts.now index.old offs.now tags.now }
    ensures { expanded_of result index.new ≡ expand_call t program.now.settings program.now.code.now program.now.starts.now index.old }
{
    let mut arrays = ColumnArrays::new();
    let line = Line {
        program: *program,
        offs,
        arg: t.arg,
    };
    let (whole, columns) = arrays.fill(&line, tags);
    let arg = Argument { number: t.arg };
    if later_tables::any_open(&whole.tables.opens, 0, arg) {
        return expand_dead(index, t, &whole.tables);
    }
    expand_switch(index, t, &columns)
}
