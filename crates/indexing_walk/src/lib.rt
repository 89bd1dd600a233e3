// The walk through a stored index, table by table, with expansion on demand: its loop and the public call.
// Port of scryer-prolog's switch_on_term and its loop (indexing_scan.rs).
// Code, starts, settings and call are not checked yet where they come in: a Query is what they are afterwards. An index stands at the front of a lent buffer,
// so its count goes beside. A count of lines becomes a u32 by `as`: there is no From for it.
#![tactic(auto)]

mod store;
mod turns;

ghost use Rattle.std.specs.Prelude.{◌≡◌, ◌≤◌, length, take, true};
ghost use Rattle.records.specs.Records.{records_of};
ghost use Rattle.indexing_iter.specs.Classes.{class_of};
ghost use Rattle.indexing_iter.specs.Refusals.{passed};
ghost use Rattle.indexing_iter.specs.Clauses.{known};
ghost use Rattle.indexing.specs.Builder.{capacity_of};
ghost use Rattle.well_formed.specs.WellFormed.{well_formed};
ghost use Rattle.indexing_scan.specs.Calls.{check_index, walked_by, result_of, walk_call};
ghost use Rattle.indexing_walk.specs.Answers.{told_by, walked_of};
ghost use Rattle.indexing_walk.specs.Walking.{StandsIn, WalksBy};

use indexing_iter::Settings;
use indexing_iter::program::Program;
use indexing_iter::refusal::Refusal;
use indexing_scan::case::Case;
use indexing_scan::query::Query;
use indexing_scan::stored_index::Stored;
use std::ops::ControlFlow;

// What a switch leads to: nothing, a clause, or a line by its number and the place of its first table. Two of the cases
// lead on: an Option would have an enum inside.
#[derive(Clone, Copy, Debug, PartialEq, Eq)]
pub enum Looked {
    Failed,
    External(u32),
    Enter(u32, usize),
}

// Where a walk is: its line, its place, the first argument whose table may be left, the records and lines of the index, whether
// expansions are stored, and the tables looked at. The contracts say that these are at most 64, and no ghost field does: the definitions
// count one more table at any number.
#[derive(Clone, Copy, Debug, PartialEq, Eq)]
pub struct Walking {
    pub line: u32,
    pub at: usize,
    pub from: u32,
    pub count: usize,
    pub lines: u32,
    pub storing: bool,
    pub tables: u32,
}

impl Walking {
    // The index that the walk goes through, at the front of a buffer.
    fn stored<'a>(self, index: &'a [u8]) -> Stored<'a>
        requires { self.count ≤ length (records_of index.now) }
        ensures { (result.index.now ≡ index.now) × (result.count ≡ self.count) }
    {
        Stored {
            index,
            count: self.count,
        }
    }
}

// How a walk ended: case, line number, count of offsets, tables looked at, whether all was stored, records of the index.
#[derive(Clone, Copy, Debug, PartialEq, Eq)]
pub struct Ended {
    pub case: Case,
    pub line: u32,
    pub count: usize,
    pub tables: u32,
    pub whole: bool,
    pub records: usize,
}

// The walk from where it stands: turns until it has ended. The answer's offsets are put at the front of the list.
fn walk_lines(
    query: &Query,
    index: &mut [u8],
    first: Walking,
    list: &mut [u32; 1024],
    tags: &mut [u8; 1024],
) -> Ended
    requires { StandsIn query.now.program index.old first }
    ensures { WalksBy query.now index.old first index.new list.new result }
{
    let mut w = first;
    loop {
        match turns::turn(query, index, w, list, tags) {
            ControlFlow::Continue(v) => {
                w = v;
            }
            ControlFlow::Break(e) => {
                return e;
            }
        }
    }
}

// The walk of an index of count records, with lists of 1,024 clauses.
fn walk_index(query: &Query, index: &mut [u8], count: usize, out: &mut [u32]) -> Ended
    requires starts_in_bounds { length query.now.program.starts.now ≤ length out.old }
    requires count_bound { (count ≤ capacity_of index.old) × (well_formed query.now.program.settings.arity query.now.program.settings.dynamic (known query.now.program.starts.now) (take count (records_of index.old)) ≡ true) }
    ensures { told_by result index.new out.new
        ≡ walked_by passed query.now.program.settings (result_of class_of query.now.program.code.now query.now.program.starts.now query.now.program.settings query.now.call.now index.old count) index.old out.old }
{
    let lines = well_formed::count_lines(index, count);
    let first = Walking {
        line: 0,
        at: 1,
        from: 1,
        count,
        lines: lines as u32,
        storing: true,
        tables: 0,
    };
    let mut list = [0u32; 1024];
    let mut tags = [0u8; 1024];
    let e = walk_lines(query, index, first, &mut list, &mut tags);
    out[..e.count].copy_from_slice(&list[..e.count]);
    e
}

// 12: the record count above the capacity, or records that are not well formed.
fn check_index(program: &Program, index: &[u8], count: usize) -> Result<(), Refusal>
    ensures { result ≡ check_index program.now.settings program.now.starts.now index.now count }
{
    let capacity = indexing_builder::capacity(index);
    let n = records::capacity(program.code);
    let Settings { arity, dynamic, .. } = program.settings;
    if count <= capacity
        && well_formed::well_formed(index, count, program.starts, n, arity, dynamic)
    {
        Ok(())
    } else {
        Err(Refusal::Index)
    }
}

// The walk of a call through an index of count records: refused with the first of 1, 3 to 7, 10, 11 and 12 that applies; else the case, line
// number, count, tables looked at, mark and new record count, with the answer's offsets in out and the expansions that fit in the index.
pub fn switch_on_term(
    code: &[u8],
    starts: &[u32],
    settings: Settings,
    call: &[u8],
    index: &mut [u8],
    count: usize,
    out: &mut [u32],
) -> Result<Ended, Refusal>
    ensures { walked_of result index.new out.new
        ≡ walk_call class_of code.now starts.now settings call.now index.old count out.old }
{
    let program = Program::check(code, starts, settings)?;
    indexing_scan::calls::check_call(call, settings.arity)?;
    indexing_scan::calls::check_out(starts, out)?;
    check_index(&program, index, count)?;
    let query = Query { program, call };
    Ok(walk_index(&query, index, count, out))
}
