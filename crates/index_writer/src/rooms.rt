// How many records lines, and a whole index, take: counted before anything is written.
// Writing and counting decide alike in two functions each, as put_rest and rest_room: room is counted first, since a refusal leaves the buffer as it was.
// One function over both would have to promise a number and bytes at once, and would be no plainer.
ghost use Rattle.std.specs.Prelude.{◌≡◌, List, ◌++◌, ℕ, ◌+◌, ◌-◌, ◌≤◌, ◌<◌, length};
ghost use Rattle.indexing_iter.specs.Groups.{group_number};
ghost use Rattle.indexing.specs.Columns.{tables_at, choices, line_of, line_at, group_lines, list_line, new_lines_recs, seed_recs};
ghost use Rattle.index_writer.specs.Written.{IndexRoomOf};

use crate::clauses::{LineRooms, Opens};
use crate::switched::Switched;
use crate::{buckets, choices, later_tables};
use indexing_iter::group::Group;

// How many records stand behind the line record of the bucket that clause i leads: the tables for the arguments after the switch's, and the offsets.
fn rest_room(opens: &Opens, switched: Switched, i: usize) -> usize
    ensures by_index { (offs tags : List ℕ) → result ≡ length (tables_at opens.now.leaders.now opens.now.opens.now offs switched.settings.mask switched.settings.extensible i (switched.arg + 1) (switched.settings.arity - switched.arg) ++ choices opens.now.leaders.now offs tags switched.settings.dynamic switched.settings.non_counted i) }
    ensures upper_bound { result ≤ 33824 }
{
    let Switched { settings, arg } = switched;
    later_tables::tables_room(opens, settings, i, arg + 1, settings.arity - arg)
        + choices::count_members(opens.leaders, i)
}

// How many records the line for the bucket that clause i leads takes, whatever its number is.
fn line_room(opens: &Opens, switched: Switched, i: usize) -> usize
    ensures by_index { (heads offs tags : List ℕ) (number : ℕ) → result ≡ length (line_of opens.now.leaders.now heads opens.now.opens.now offs tags switched.settings switched.arg number i) }
    ensures upper_bound { result ≤ 33825 }
{
    1 + rest_room(opens, switched, i)
}

// How many records line 0 takes before its switch is made.
pub fn seed_room(opens: &Opens, switched: Switched) -> usize
    ensures by_index { (offs tags : List ℕ) → result ≡ length (seed_recs opens.now.leaders.now opens.now.opens.now offs tags switched.settings switched.arg) }
    ensures upper_bound { result ≤ 33826 }
{
    2 + rest_room(opens, switched, 0)
}

// How many records the new line for the bucket that clause i leads takes.
fn new_line_room(rooms: &LineRooms, i: usize) -> usize
    ensures by_index { (heads offs tags : List ℕ) (number : ℕ) → result ≡ length (line_of rooms.now.buckets.heads.leaders.now heads rooms.now.opens.now offs tags rooms.now.switched.settings rooms.now.switched.arg number i) }
    ensures upper_bound { result ≤ 33825 }
{
    line_room(&rooms.opens(), rooms.switched, i)
}

// How many records the line takes that clause i opens in group g, if it opens one.
fn line_room_at(rooms: &LineRooms, g: Group, i: usize) -> usize
    requires { i < length rooms.now.buckets.heads.leaders.now }
    ensures by_index { (offs tags : List ℕ) (number : ℕ) → result ≡ length (line_at rooms.now.buckets.heads.leaders.now rooms.now.buckets.heads.heads.now rooms.now.opens.now offs tags rooms.now.switched.settings rooms.now.switched.arg (group_number g) number i) }
    ensures upper_bound { result ≤ 33825 }
{
    if buckets::opens_line(&rooms.buckets, u32::from(g), i) {
        new_line_room(rooms, i)
    } else {
        0
    }
}

// How many records the lines of group g take, whatever their numbers are.
// The sum is a loop: its invariant is the bound and the length at once. `sum` needs a bound on the list of all rooms, which no clause says.
fn group_room(rooms: &LineRooms, g: Group) -> usize
    ensures by_index { (offs tags : List ℕ) (number : ℕ) → result ≡ length (group_lines rooms.now.buckets.heads.leaders.now rooms.now.buckets.heads.heads.now rooms.now.opens.now offs tags rooms.now.switched.settings rooms.now.switched.arg (group_number g) number) }
    ensures upper_bound { result ≤ 34636800 }
{
    let mut room = 0;
    for i in 0..rooms.buckets.heads.leaders.len() {
        room += line_room_at(rooms, g, i);
    }
    room
}

// How many records the lines of the list group take.
fn list_room(rooms: &LineRooms) -> usize
    ensures by_index { (offs tags : List ℕ) (number : ℕ) → result ≡ length (list_line rooms.now.buckets.heads.leaders.now rooms.now.buckets.heads.heads.now rooms.now.opens.now offs tags rooms.now.switched.settings rooms.now.switched.arg number) }
    ensures upper_bound { result ≤ 34636800 }
{
    let heads = &rooms.buckets.heads;
    if buckets::empty_list(heads) {
        new_line_room(rooms, heads.leaders.len())
    } else {
        group_room(rooms, Group::List)
    }
}

// How many records all new lines of the switch take, whatever their numbers are.
pub fn new_lines_room(rooms: &LineRooms) -> usize
    ensures by_index { (offs tags : List ℕ) (number : ℕ) → result ≡ length (new_lines_recs rooms.now.buckets.heads.leaders.now rooms.now.buckets.heads.heads.now rooms.now.opens.now offs tags rooms.now.switched.settings rooms.now.switched.arg number) }
    ensures upper_bound { result ≤ 103910400 }
{
    let lists = list_room(rooms);
    let structures = group_room(rooms, Group::Structures);
    let literals = group_room(rooms, Group::Literals);
    lists + structures + literals
}

// How many records a new index takes: line 0 before its switch is made, what that switch takes more than the on-demand record in whose
// place it comes, and all.
#[derive(Clone, Copy, Debug, PartialEq, Eq)]
pub struct IndexRoom {
    pub line: usize,
    pub more: usize,
    pub count: usize,
}

// The room of the index whose line 0 has the clauses in one bucket, and whose switch has them in the buckets of these new lines.
pub fn index_room(whole: &Opens, rooms: &LineRooms) -> IndexRoom
    ensures { (bits offs tags : List ℕ) → IndexRoomOf whole.now rooms.now bits offs tags result }
{
    let line = seed_room(whole, rooms.switched);
    let more = buckets::switch_room(&rooms.buckets.heads) - 1;
    let count = line + more + new_lines_room(rooms);
    IndexRoom { line, more, count }
}
