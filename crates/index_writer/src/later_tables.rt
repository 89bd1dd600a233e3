// The tables of a new line for the arguments after the switch's: on demand, dead or none.
// put_table and table_room, and put_tables and tables_room, decide alike in two functions each, for the reason at the top of rooms.
// (opens or tables, settings, i, b) are no struct: i changes with each line and b with each turn. All settings are handed on: mask and extensible are read.
// A u32 becomes a usize by `as`, since there is no From for it. An argument becomes a u16 by `as`: it is at most 32.
ghost use Rattle.std.specs.Prelude.{◌≡◌, List, ◌∷◌, ℕ, ◌+◌, ◌≤◌, ◌<◌, length};
ghost use Rattle.records.specs.Records.{rec_of, records_of};
ghost use Rattle.indexing.specs.Upto.{count_to, any_to};
ghost use Rattle.indexing.specs.Columns.{table_at, tables_at, dead_recs};
ghost use Rattle.index_writer.specs.Writing.{Puts};
ghost use Rattle.index_writer.specs.Written.{open_by, dead_clause_by, dead_clauses_by, table_by, tables_by, dead_by};

use crate::argument::Argument;
use crate::clauses::{Opens, Tables};
use crate::counting::{any_if, count_if};
use crate::{choices, index_records};
use indexing::kinds::Kind;
use indexing_iter::Settings;

// Whether clause j is in the bucket that clause i leads and has no key at argument b.
#[tactic(auto, unfolding(indexing::specs::Columns::open_member))]
fn open_member(opens: &Opens, i: usize, b: Argument, j: usize) -> bool
    requires { j < length opens.now.leaders.now }
    ensures { result ≡ open_by opens.now i b.number j }
{
    choices::in_bucket(opens.leaders, i, j) && opens.opens[32 * j + (b.number - 1) as usize] == 1
}

// Whether some clause of the bucket that clause i leads has no key at argument b.
pub fn any_open(opens: &Opens, i: usize, b: Argument) -> bool
    ensures { result ≡ any_to (open_by opens.now i b.number) (length opens.now.leaders.now) }
{
    let n = opens.leaders.len();
    any_if(n, |j| open_member(opens, i, b, j))
}

// How many clauses of the bucket that clause i leads have no key at argument b.
fn count_open(opens: &Opens, i: usize, b: Argument) -> usize
    ensures value { result ≡ count_to (open_by opens.now i b.number) (length opens.now.leaders.now) }
    ensures upper_bound { result ≤ length opens.now.leaders.now }
{
    let n = opens.leaders.len();
    count_if(n, |j| open_member(opens, i, b, j))
}

// Writes clause j as a dead clause where it is in the bucket that clause i leads and has no key at argument b. Returns the place after it.
fn put_dead_clause(
    index: &mut [u8],
    q: usize,
    tables: &Tables,
    i: usize,
    b: Argument,
    j: usize,
) -> usize
    requires j_bound { j < length tables.now.opens.leaders.now }
    requires j_in_bounds { q + length (dead_clause_by tables.now i b.number j) ≤ length (records_of index.old) }
    ensures { Puts index.old index.new q result (dead_clause_by tables.now i b.number j) }
{
    if open_member(&tables.opens, i, b, j) {
        records::put(index, q, index_records::dead_clause(tables.offs[j]));
        return q + 1;
    }
    q
}

// Writes the dead clauses of the bucket that clause i leads at argument b, and returns the place after them.
// A loop of its own, as in buckets::put_entries: a turn writes to index, from the place that the turn before gives.
fn put_dead_clauses(index: &mut [u8], p: usize, tables: &Tables, i: usize, b: Argument) -> usize
    requires { p + length (dead_clauses_by tables.now i b.number) ≤ length (records_of index.old) }
    ensures { Puts index.old index.new p result (dead_clauses_by tables.now i b.number) }
{
    let mut q = p;
    for j in 0..tables.opens.leaders.len() {
        q = put_dead_clause(index, q, tables, i, b, j);
    }
    q
}

// Writes the dead table for argument b of the bucket that clause i leads, and returns the place after it.
fn put_dead_table(index: &mut [u8], p: usize, tables: &Tables, i: usize, b: Argument) -> usize
    requires { p + length (rec_of 4 0 b.number 0 0 ∷ dead_clauses_by tables.now i b.number) ≤ length (records_of index.old) }
    ensures { Puts index.old index.new p result (rec_of 4 0 b.number 0 0 ∷ dead_clauses_by tables.now i b.number) }
{
    let dead = index_records::table(Kind::Dead, b.number as u16);
    records::put(index, p, dead);
    put_dead_clauses(index, p + 1, tables, i, b)
}

// Writes the table for argument b of the bucket that clause i leads, if it has one, and returns the place after it.
fn put_table(
    index: &mut [u8],
    p: usize,
    tables: &Tables,
    settings: Settings,
    i: usize,
    b: Argument,
) -> usize
    requires { p + length (table_by tables.now settings i b.number) ≤ length (records_of index.old) }
    ensures { Puts index.old index.new p result (table_by tables.now settings i b.number) }
{
    if indexing::masked(settings.mask, b.number) {
        return p;
    }
    if !any_open(&tables.opens, i, b) {
        let on_demand = index_records::table(Kind::OnDemand, b.number as u16);
        records::put(index, p, on_demand);
        p + 1
    } else if settings.extensible {
        put_dead_table(index, p, tables, i, b)
    } else {
        p
    }
}

// Writes the tables for k arguments from b on of the bucket that clause i leads, and returns the place after them.
// A loop of its own, as in buckets::put_entries: a turn writes to index, from the place that the turn before gives.
// t counts from 0, as in the definition tables_at: over b..b + k each proof of a turn needs b + (number - b) = number as well.
pub fn put_tables(
    index: &mut [u8],
    p: usize,
    tables: &Tables,
    settings: Settings,
    i: usize,
    b: u32,
    k: u32,
) -> usize
    requires le_b { (1 ≤ b) × (b + k ≤ 33) }
    requires k_in_bounds { p + length (tables_by tables.now settings i b k) ≤ length (records_of index.old) }
    ensures { Puts index.old index.new p result (tables_by tables.now settings i b k) }
{
    let mut q = p;
    for t in 0..k {
        let argument = Argument { number: b + t };
        q = put_table(index, q, tables, settings, i, argument);
    }
    q
}

// How many records the table for argument b of the bucket that clause i leads takes.
fn table_room(opens: &Opens, settings: Settings, i: usize, b: Argument) -> usize
    ensures by_index { (offs : List ℕ) → result ≡ length (table_at opens.now.leaders.now opens.now.opens.now offs settings.mask settings.extensible i b.number) }
    ensures upper_bound { result ≤ 1025 }
{
    if indexing::masked(settings.mask, b.number) {
        0
    } else if !any_open(opens, i, b) {
        1
    } else if settings.extensible {
        1 + count_open(opens, i, b)
    } else {
        0
    }
}

// How many records the tables for k arguments from b on of the bucket that clause i leads take.
// The sum is a loop: its invariant is the bound and the length at once. `sum` needs a bound on the list of all rooms, which no clause says.
// t counts from 0 as in put_tables.
pub fn tables_room(opens: &Opens, settings: Settings, i: usize, b: u32, k: u32) -> usize
    requires le_b { (1 ≤ b) × (b + k ≤ 33) }
    ensures by_index { (offs : List ℕ) → result ≡ length (tables_at opens.now.leaders.now opens.now.opens.now offs settings.mask settings.extensible i b k) }
    ensures upper_bound { result ≤ 32800 }
{
    let mut room = 0;
    for t in 0..k {
        room += table_room(opens, settings, i, Argument { number: b + t });
    }
    room
}

// Writes the dead table for arg of a line whose clauses are one bucket, led by clause 0, and returns the place after it.
#[tactic(auto, unfolding(indexing::specs::Columns::dead_recs))]
pub fn put_dead(index: &mut [u8], p: usize, tables: &Tables, arg: Argument) -> usize
    requires { p + length (dead_by tables.now arg.number) ≤ length (records_of index.old) }
    ensures { Puts index.old index.new p result (dead_by tables.now arg.number) }
{
    put_dead_table(index, p, tables, 0, arg)
}

// How many records that dead table takes.
pub fn dead_room(opens: &Opens, arg: Argument) -> usize
    ensures by_index { (offs : List ℕ) → result ≡ length (dead_recs opens.now.leaders.now opens.now.opens.now offs arg.number) }
    ensures upper_bound { result ≤ 1025 }
{
    1 + count_open(opens, 0, arg)
}
