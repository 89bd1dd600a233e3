// Number 12: whether a handed-in index is well formed. Its lines are counted, then its records are checked in one pass from the last to the
// first, with the keys of each switch compared where its record is met.
// count_lines and well_formed take a buffer with the number of its records: they are public, and the rest of the buffer is room for growth.
// arity ≤ 32 is asked beside the arity: what is read here is an index, and a Program, which says it of its settings, has code besides.
// A u32 becomes a usize by `as`: there is no From for it.
#![tactic(auto)]

pub mod forms;
mod keys;
mod steps;

ghost use Rattle.std.specs.Prelude.{◌≡◌, true, ◌-◌, ◌≤◌, length, take};
ghost use Rattle.records.specs.Records.{records_of};
ghost use Rattle.indexing.specs.Reading.{parse};
ghost use Rattle.indexing_iter.specs.Checks.{rising_below};
ghost use Rattle.indexing_iter.specs.Clauses.{known};
ghost use Rattle.well_formed.specs.WellFormed.{well_formed};
ghost use Rattle.well_formed.specs.Pass.{marked, Marks, checked};
ghost use Rattle.indexing.specs.Chains.{Cleared};

use indexing::kinds::Kind;
use indexing_iter::group::Group;

// What an index is checked against: marks has a 1 at each offset of a clause; total is how many lines the index has.
// marks holds numbers: may_rise and reach_of are public and take them as such, and a bool for each would ask more of their callers.
#[derive(Clone, Copy)]
pub struct Asked<'a> {
    pub marks: &'a [u8],
    pub total: usize,
    pub arity: u32,
    pub dynamic: bool,
}

// The state of the pass. Of what has no table or line record in front of it yet: how many entries, the group of the first of
// them and what the argument of their switch must be below; the first dead clause (0: none); the first table's
// argument (33: none); the first offset (0: none). And how many lines are behind. Neither entries nor lines exceed an index's 65,535 records.
// clause, first and offset are no Options: clause and offset are words of records, where 0 is no clause's offset; and 33 is above
// every argument, so one comparison tells whether a table may stand in front.
#[derive(Clone, Copy)]
pub struct Waits {
    pub entries: u16,
    pub group: Option<Group>,
    pub below: u16,
    pub clause: u32,
    pub first: u16,
    pub offset: u32,
    pub lines: u16,
}

// How many lines the records have. `filter` and `count` over the places were tried: a later call took 1 to 4 % more instructions.
fn lines_in(index: &[u8]) -> usize
    ensures { result ≡ length (parse (records_of index.now)) }
{
    let mut lines = 0;
    for i in (0..records::capacity(index)).rev() {
        let r = records::get(index, i);
        lines += usize::from(r.kind == u8::from(Kind::Line));
    }
    lines
}

// How many lines the first count records have.
pub fn count_lines(index: &[u8], count: usize) -> usize
    requires { (count ≤ length (records_of index.now)) × (count ≤ 65535) }
    ensures { result ≡ length (parse (take count (records_of index.now))) }
{
    lines_in(records::part(index, 0, count))
}

// Marks the offsets of the clauses: each start plus 1.
fn mark_starts(marks: &mut [u8], starts: &[u32])
    requires cleared { Cleared marks.old }
    requires starts_value { rising_below (length marks.old - 1) starts.now ≡ true }
    ensures { Marks marks.new starts.now }
{
    for start in starts {
        marks[*start as usize + 1] = 1;
    }
}

// The records from the last to the first, each in front of those behind it; firsts takes the first arguments of the lines. The loop goes by places:
// that order is the pass's, and records are bytes, of which there is no slice of records.
fn check_records(index: &[u8], asked: &Asked, firsts: &mut [u16]) -> bool
    requires { (length (records_of index.now) ≤ 65535) × (length (records_of index.now) ≤ length firsts.old) }
    ensures { result ≡ checked asked.now.arity asked.now.dynamic (marked asked.now.marks.now) asked.now.total (records_of index.now) }
{
    let n = records::capacity(index);
    let mut s = Waits::at_line(0);
    for i in (0..n).rev() {
        let r = records::get(index, i);
        let Ok(kind) = Kind::try_from(r.kind) else {
            return false;
        };
        let behind = records::part(index, i + 1, n);
        let Some(next) = s.step(kind, r, behind, firsts, asked) else {
            return false;
        };
        s = next;
    }
    s.is_closed()
}

// Number 12 with tables of the sizes MARKS, for the clauses' offsets, and LINES, for the first arguments of the lines.
fn formed_in<const MARKS: usize, const LINES: usize>(
    index: &[u8],
    starts: &[u32],
    arity: u32,
    dynamic: bool,
) -> bool
    requires sizes { (MARKS ≤ 32769) × (LINES ≤ 65535) }
    requires lines_in_bounds { length (records_of index.now) ≤ LINES }
    requires starts_value { rising_below (MARKS - 1) starts.now ≡ true }
    requires arity_bound { arity ≤ 32 }
    ensures { result ≡ well_formed arity dynamic (known starts.now) (records_of index.now) }
{
    let mut marks = [0u8; MARKS];
    let mut firsts = [0u16; LINES];
    mark_starts(&mut marks, starts);
    let asked = Asked {
        marks: &marks,
        total: lines_in(index),
        arity,
        dynamic,
    };
    check_records(index, &asked, &mut firsts)
}

// Number 12, of the first count records of an index for checked code of n records with these starts: code of at most 2,047 records
// and an index of at most 2,048 have small tables, with little to clear.
pub fn well_formed(
    index: &[u8],
    count: usize,
    starts: &[u32],
    n: usize,
    arity: u32,
    dynamic: bool,
) -> bool
    requires count_in_bounds { (count ≤ length (records_of index.now)) × (count ≤ 65535) }
    requires starts_value { (rising_below n starts.now ≡ true) × (n ≤ 32768) }
    requires arity_bound { arity ≤ 32 }
    ensures { result ≡ well_formed arity dynamic (known starts.now) (take count (records_of index.now)) }
{
    let index = records::part(index, 0, count);
    if n <= 2047 && count <= 2048 {
        formed_in::<2048, 2048>(index, starts, arity, dynamic)
    } else {
        formed_in::<32769, 65535>(index, starts, arity, dynamic)
    }
}
