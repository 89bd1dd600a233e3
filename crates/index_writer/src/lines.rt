// The lines of buckets: a line record, tables for the later arguments, offsets.
// put_rest, put_group and put_list_line decide as rest_room, group_room and list_room do, for the reason at the top of rooms.
// An argument becomes a u16 by `as`: it is at most 32.
ghost use Rattle.std.specs.Prelude.{◌≡◌, ◌+◌, ◌≤◌, ◌<◌, length};
ghost use Rattle.records.specs.Records.{records_of, Wrote};
ghost use Rattle.records.specs.Moves.{written};
ghost use Rattle.index_writer.specs.Writing.{Puts};
ghost use Rattle.index_writer.specs.Written.{rest_by, line_by, seed_by, new_line_by, group_lines_by, list_line_by, new_lines_by};

use crate::clauses::{Choices, Clauses, NewLines, Tables};
use crate::switched::Switched;
use crate::{buckets, choices, index_records, later_tables};
use indexing::kinds::Kind;
use indexing_iter::group::Group;

// Writes what stands behind the line record of the bucket that clause i leads: the tables for the arguments after the switch's, and the offsets.
fn put_rest(index: &mut [u8], p: usize, clauses: &Clauses, switched: Switched, i: usize) -> usize
    requires { p + length (rest_by clauses.now switched i) ≤ length (records_of index.old) }
    ensures { Puts index.old index.new p result (rest_by clauses.now switched i) }
{
    let Switched { settings, arg } = switched;
    let tables = &clauses.tables;
    let q = later_tables::put_tables(index, p, tables, settings, i, arg + 1, settings.arity - arg);
    let choices = Choices {
        leaders: tables.opens.leaders,
        offs: tables.offs,
        tags: clauses.tags,
    };
    let n = choices::count_members(choices.leaders, i);
    choices::put_choices(index, q, &choices, settings, n, i)
}

// Writes the line of a number for the bucket that clause i leads, and returns the place after it.
fn put_line(
    index: &mut [u8],
    p: usize,
    clauses: &Clauses,
    switched: Switched,
    number: u32,
    i: usize,
) -> usize
    requires { p + length (line_by clauses.now switched number i) ≤ length (records_of index.old) }
    ensures { Puts index.old index.new p result (line_by clauses.now switched number i) }
{
    let line = index_records::line(switched.settings.dynamic, number);
    records::put(index, p, line);
    put_rest(index, p + 1, clauses, switched, i)
}

// Writes line 0 as it is before its switch is made, from place 0 on, and returns the place after it: all clauses are one bucket, led by clause 0.
pub fn put_seed(index: &mut [u8], clauses: &Clauses, switched: Switched) -> usize
    requires arg_in_bounds { length (seed_by clauses.now switched) ≤ length (records_of index.old) }
    ensures value { result ≡ length (seed_by clauses.now switched) }
    ensures wrote { Wrote index.old index.new (written (records_of index.old) 0 (seed_by clauses.now switched)) }
{
    let line = index_records::line(switched.settings.dynamic, 0);
    records::put(index, 0, line);
    let on_demand = index_records::table(Kind::OnDemand, switched.arg as u16);
    records::put(index, 1, on_demand);
    put_rest(index, 2, clauses, switched, 0)
}

// Writes the new line of a number for the bucket that clause i leads, and returns the place after it.
// Opens is written out here and in rooms::new_line_room: a method would promise by equations what the literal says by itself.
fn put_new_line(index: &mut [u8], p: usize, lines: &NewLines, number: u32, i: usize) -> usize
    requires { p + length (new_line_by lines.now number i) ≤ length (records_of index.old) }
    ensures { Puts index.old index.new p result (new_line_by lines.now number i) }
{
    let clauses = Clauses {
        tables: Tables {
            opens: lines.rooms.opens(),
            offs: lines.offs,
        },
        tags: lines.tags,
    };
    put_line(index, p, &clauses, lines.rooms.switched, number, i)
}

// Writes the lines of group g, numbered from first on, and returns the place after them.
// A loop of its own, as in buckets::put_entries: a turn writes to index, and takes the place and the line's number from the turn before.
fn put_group(index: &mut [u8], p: usize, lines: &NewLines, g: Group, first: u32) -> usize
    requires first_bound { first ≤ 100000 }
    requires first_in_bounds { p + length (group_lines_by lines.now g first) ≤ length (records_of index.old) }
    ensures { Puts index.old index.new p result (group_lines_by lines.now g first) }
{
    let buckets = &lines.rooms.buckets;
    let mut q = p;
    let mut number = first;
    for i in 0..buckets.heads.leaders.len() {
        if buckets::opens_line(buckets, u32::from(g), i) {
            q = put_new_line(index, q, lines, number, i);
            number += 1;
        }
    }
    q
}

// Writes the lines of the list group, also where it has a line for no clause, and returns the place after them.
fn put_list_line(index: &mut [u8], p: usize, lines: &NewLines, number: u32) -> usize
    requires number_bound { number ≤ 100000 }
    requires number_in_bounds { p + length (list_line_by lines.now number) ≤ length (records_of index.old) }
    ensures { Puts index.old index.new p result (list_line_by lines.now number) }
{
    let heads = &lines.rooms.buckets.heads;
    if buckets::empty_list(heads) {
        return put_new_line(index, p, lines, number, heads.leaders.len());
    }
    put_group(index, p, lines, Group::List, number)
}

// Writes all new lines of the switch, numbered from number on, by list, structures, literals, and returns the place after them.
pub fn put_new_lines(index: &mut [u8], p: usize, lines: &NewLines, number: u32) -> usize
    requires number_bound { number ≤ 65536 }
    requires number_in_bounds { p + length (new_lines_by lines.now number) ≤ length (records_of index.old) }
    ensures { Puts index.old index.new p result (new_lines_by lines.now number) }
{
    let buckets = &lines.rooms.buckets;
    let structures = number + buckets::list_lines(buckets);
    let literals = structures + buckets::count_lines(buckets, u32::from(Group::Structures));
    let q = put_list_line(index, p, lines, number);
    let q = put_group(index, q, lines, Group::Structures, structures);
    put_group(index, q, lines, Group::Literals, literals)
}
