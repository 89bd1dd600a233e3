// Buckets of a line's clauses by their keys at one argument, and the switch that leads to them.
// A u32 becomes a usize by `as`, since there is no From for it. A count of lines becomes a u32 by `as`: there are at most 1,024 clauses.
// A writer takes the index and a place and gives back the place after what it wrote. A struct of both would hold the lent index: each contract would
// speak of that field's states, and no call would be shorter.
// i is below the number of clauses in each function that reads a column at i: the bound is of a number that is another in each call. count_lines and
// list_lines ask that there are at most 1,024 clauses: the other readers of Buckets ask no bound, so it is no field.
ghost use Rattle.std.specs.Prelude.{◌≡◌, cond, List, ℕ, ◌+◌, ◌*◌, ◌≤◌, ◌<◌, length};
ghost use Rattle.records.specs.Records.{records_of};
ghost use Rattle.records.specs.Pointer.{internal_word};
ghost use Rattle.indexing_iter.specs.Groups.{group_number};
ghost use Rattle.std.specs.Int.{from_bool};
ghost use Rattle.indexing.specs.Upto.{count_to, any_to};
ghost use Rattle.indexing.specs.Columns.{group_of_head, needs_line, opens_bucket, lines_to, empty_list, list_lines, switch_recs};
ghost use Rattle.index_writer.specs.Writing.{Puts};
ghost use Rattle.index_writer.specs.Written.{bucket_opens, line_opens, bucket_needs_line, entry_by, entries_by, list_entries_by, switch_by};

use crate::clauses::{Buckets, Entries, Heads};
use crate::counting::{any_if, count_if};
use crate::index_records;
use indexing::kinds::Kind;
use indexing_iter::OptArgIndexKey;
use indexing_iter::group::Group;

// The group of a key by its head, whose sort is 1 to 3 for a literal, 4 for a structure and 5 for the list.
// A head is a u32: sort and arity in one number, which is compared and divided. The sorts are document 01's numbers.
fn group(head: u32) -> Group
    ensures { group_number result ≡ group_of_head head }
{
    match head / 65536 {
        0..=3 => Group::Literals,
        4 => Group::Structures,
        _ => Group::List,
    }
}

// Whether clause i opens a bucket of the group whose number is g. It is a number here and in the three public functions that follow: any may be asked
// about, and a Group would ask more of their callers than a u32 did.
#[tactic(auto, unfolding(indexing::specs::Columns::opens_bucket, indexing::specs::Columns::leads))]
fn opens_bucket(heads: &Heads, g: u32, i: usize) -> bool
    requires { i < length heads.now.leaders.now }
    ensures { result ≡ bucket_opens heads.now g i }
{
    heads.leaders[i] as usize == i && u32::from(group(heads.heads[i])) == g
}

// Whether the bucket that clause i leads is a line.
#[tactic(auto, unfolding(indexing::specs::Columns::needs_line))]
fn needs_line(buckets: &Buckets, i: usize) -> bool
    requires { i < length buckets.now.heads.leaders.now }
    ensures { result ≡ bucket_needs_line buckets.now.heads i }
{
    buckets.heads.dynamic || 2 <= buckets.sizes[i]
}

// Whether clause i opens a bucket of group g that is a line.
#[tactic(auto, unfolding(indexing::specs::Columns::opens_line))]
pub fn opens_line(buckets: &Buckets, g: u32, i: usize) -> bool
    requires { i < length buckets.now.heads.leaders.now }
    ensures { result ≡ line_opens buckets.now.heads g i }
{
    opens_bucket(&buckets.heads, g, i) && needs_line(buckets, i)
}

// One where clause i opens a line of group g, else nothing.
pub fn line_step(buckets: &Buckets, g: u32, i: usize) -> u32
    requires { i < length buckets.now.heads.leaders.now }
    ensures { (result ≡ from_bool (line_opens buckets.now.heads g i)) × (result ≤ 1) }
{
    u32::from(opens_line(buckets, g, i))
}

// How many lines the buckets of group g take.
#[tactic(auto, unfolding(indexing::specs::Columns::lines_to))]
pub fn count_lines(buckets: &Buckets, g: u32) -> u32
    requires few { length buckets.now.heads.leaders.now ≤ 1024 }
    ensures value { result ≡ lines_to buckets.now.heads.leaders.now buckets.now.heads.heads.now buckets.now.heads.dynamic g (length buckets.now.heads.leaders.now) }
    ensures upper_bound { result ≤ length buckets.now.heads.leaders.now }
{
    let n = buckets.heads.leaders.len();
    count_if(n, |i| opens_line(buckets, g, i)) as u32
}

// Whether group g has a bucket.
fn any_bucket(heads: &Heads, g: Group) -> bool
    ensures { result ≡ any_to (bucket_opens heads.now (group_number g)) (length heads.now.leaders.now) }
{
    let n = heads.leaders.len();
    any_if(n, |i| opens_bucket(heads, u32::from(g), i))
}

// Whether the list line has no clauses: a dynamic line has one even where no clause has a list.
#[tactic(auto, unfolding(indexing::specs::Columns::empty_list))]
pub fn empty_list(heads: &Heads) -> bool
    ensures { result ≡ empty_list heads.now.leaders.now heads.now.heads.now heads.now.dynamic }
{
    heads.dynamic && !any_bucket(heads, Group::List)
}

// How many lines the list group has.
#[tactic(auto, unfolding(indexing::specs::Columns::list_lines))]
pub fn list_lines(buckets: &Buckets) -> u32
    requires few { length buckets.now.heads.leaders.now ≤ 1024 }
    ensures value { result ≡ list_lines buckets.now.heads.leaders.now buckets.now.heads.heads.now buckets.now.heads.dynamic }
    ensures upper_bound { result ≤ length buckets.now.heads.leaders.now + 1 }
{
    if empty_list(&buckets.heads) {
        1
    } else {
        count_lines(buckets, u32::from(Group::List))
    }
}

// The pointer to the new line number d, counted from 1: a fresh one with that distance, grown by the lines that stand between.
// (d, by) stay two parameters, here and in the callers: what document 01 says is a fresh pointer that is grown.
fn line_pointer(d: u32, by: u32) -> u32
    requires { d + by < 2147483648 }
    ensures { result ≡ internal_word (d + by) }
{
    let fresh = records::pointer::internal(d);
    records::pointer::grown(fresh, by)
}

// The word of the entry of clause i's bucket: the pointer to its line, d among the new ones, or its offset, which does not grow.
fn pointer_to(buckets: &Buckets, i: usize, d: u32, by: u32, offset: u32) -> u32
    requires { (i < length buckets.now.heads.leaders.now) × (d + by < 2147483648) }
    ensures { result ≡ cond (bucket_needs_line buckets.now.heads i) (internal_word (d + by)) offset }
{
    if needs_line(buckets, i) {
        line_pointer(d, by)
    } else {
        offset
    }
}

// Writes the entry of the bucket that clause i opens in group g, if it opens one, and returns the place after it.
fn put_entry(
    index: &mut [u8],
    q: usize,
    entries: &Entries,
    g: Group,
    d: u32,
    by: u32,
    i: usize,
) -> usize
    requires i_bound { (i < length entries.now.buckets.heads.leaders.now) × (d + by < 2147483648) }
    requires i_in_bounds { q + length (entry_by entries.now g (d + by) i) ≤ length (records_of index.old) }
    ensures { Puts index.old index.new q result (entry_by entries.now g (d + by) i) }
{
    let heads = &entries.buckets.heads;
    if opens_bucket(heads, u32::from(g), i) {
        let word = pointer_to(&entries.buckets, i, d, by, entries.offs[i]);
        let entry = index_records::entry(heads.heads[i], entries.bits[i], word);
        records::put(index, q, entry);
        return q + 1;
    }
    q
}

// Writes the entries of group g from place p on and returns the place after them; d is the group's first line, counted from 1 among the
// new ones, and k its next; distances grow by what is given.
// A loop of its own, as where choices, dead clauses, tables and lines are written: a turn writes to index, and takes the place and often a number from
// the turn before, so one loop over a closure would be no plainer.
fn put_entries(index: &mut [u8], p: usize, entries: &Entries, g: Group, d: u32, by: u32) -> usize
    requires d_bound { d + by + length entries.now.buckets.heads.leaders.now < 2147483648 }
    requires by_in_bounds { p + length (entries_by entries.now g (d + by)) ≤ length (records_of index.old) }
    ensures { Puts index.old index.new p result (entries_by entries.now g (d + by)) }
{
    let mut q = p;
    let mut k = d;
    for i in 0..entries.buckets.heads.leaders.len() {
        q = put_entry(index, q, entries, g, k, by, i);
        k += line_step(&entries.buckets, u32::from(g), i);
    }
    q
}

// Writes the entries of the list group from place p on and returns the place after them; d is its line among the new ones.
fn put_list_entries(index: &mut [u8], p: usize, entries: &Entries, d: u32, by: u32) -> usize
    requires d_bound { d + by + length entries.now.buckets.heads.leaders.now < 2147483648 }
    requires by_in_bounds { p + length (list_entries_by entries.now (d + by)) ≤ length (records_of index.old) }
    ensures { Puts index.old index.new p result (list_entries_by entries.now (d + by)) }
{
    if empty_list(&entries.buckets.heads) {
        let word = line_pointer(d, by);
        let head = indexing_iter::head_of(OptArgIndexKey::List);
        records::put(index, p, index_records::entry(head, 0, word));
        return p + 1;
    }
    put_entries(index, p, entries, Group::List, d, by)
}

// Writes the switch on arg and its entries from place p on and returns the place after them; distances grow by what is given.
// Entries stand by literals, list, structures; new lines, counted from 1, by list, structures from d3 on, literals from d1 on.
pub fn put_switch(index: &mut [u8], p: usize, entries: &Entries, arg: u16, by: u32) -> usize
    requires by_bound { by ≤ 65535 }
    requires by_in_bounds { p + length (switch_by entries.now arg (1 + by)) ≤ length (records_of index.old) }
    ensures { Puts index.old index.new p result (switch_by entries.now arg (1 + by)) }
{
    let d3 = 1 + list_lines(&entries.buckets);
    let d1 = d3 + count_lines(&entries.buckets, u32::from(Group::Structures));
    records::put(index, p, index_records::table(Kind::Switch, arg));
    let q = put_entries(index, p + 1, entries, Group::Literals, d1, by);
    let q = put_list_entries(index, q, entries, 1, by);
    put_entries(index, q, entries, Group::Structures, d3, by)
}

// How many entries group g has.
// Writing and counting are two functions, here, in count_list_entries and in switch_room, for the reason at the top of rooms.
fn count_entries(heads: &Heads, g: Group) -> usize
    ensures value { result ≡ count_to (bucket_opens heads.now (group_number g)) (length heads.now.leaders.now) }
    ensures upper_bound { result ≤ length heads.now.leaders.now }
{
    let n = heads.leaders.len();
    count_if(n, |i| opens_bucket(heads, u32::from(g), i))
}

// How many entries the list group has.
fn count_list_entries(heads: &Heads) -> usize
    ensures value { result ≡ cond (empty_list heads.now.leaders.now heads.now.heads.now heads.now.dynamic) 1 (count_to (opens_bucket heads.now.leaders.now heads.now.heads.now 2) (length heads.now.leaders.now)) }
    ensures upper_bound { result ≤ length heads.now.leaders.now + 1 }
{
    if empty_list(heads) {
        1
    } else {
        count_entries(heads, Group::List)
    }
}

// How many records the switch and its entries take, whatever their distances are.
pub fn switch_room(heads: &Heads) -> usize
    ensures by_index { (bits offs : List ℕ) (arg d : ℕ) → result ≡ length (switch_recs heads.now.leaders.now heads.now.heads.now bits offs heads.now.dynamic arg d) }
    ensures upper_bound { result ≤ 2 + 3 * length heads.now.leaders.now }
{
    let literals = count_entries(heads, Group::Literals);
    let lists = count_list_entries(heads);
    let structures = count_entries(heads, Group::Structures);
    1 + literals + lists + structures
}
