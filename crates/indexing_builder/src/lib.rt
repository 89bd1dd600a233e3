// The builder, number 9, and the expansion of an on-demand table on the buffer.
// Port of scryer-prolog's compute_indices (indexing.rs) and indices_of_arg (indexing_scan.rs).
// Code, starts, settings and c stand one by one where nothing is checked yet: a Build is what they are afterwards.
#![tactic(auto)]

pub mod expansion;

ghost use Rattle.std.specs.Prelude.{◌≡◌, cond, ◌≤◌, length};
ghost use Rattle.records.specs.Records.{records_of};
ghost use Rattle.indexing_iter.specs.Classes.{class_of};
ghost use Rattle.index_writer.specs.Written.{switch_in, seed_by, new_lines_by};
ghost use Rattle.indexing.specs.Builder.{capacity_of, build_call};
ghost use Rattle.indexing_builder.specs.Answer.{built_of};
ghost use Rattle.indexing_builder.specs.Building.{Building};

use crate::expansion::OnDemand;
use index_writer::clauses::{Clauses, Columns};
use index_writer::first_line::FirstLine;
use index_writer::{lines, rooms};
use indexing_iter::Settings;
use indexing_iter::program::Build;
use indexing_iter::refusal::Refusal;

// The index built: its record count and the variable offset.
#[derive(Clone, Copy, Debug, PartialEq, Eq)]
pub struct Built {
    pub count: usize,
    pub variable: u32,
}

// How many records an index in this buffer may have: the buffer's whole records, at most 65,535.
#[tactic(auto, using(crate::proofs::CapacityLaws::whole_records))]
pub fn capacity(index: &[u8]) -> usize
    ensures value { result ≡ capacity_of index.now }
    ensures upper_bound { (result ≤ length (records_of index.now)) × (result ≤ 65535) }
{
    records::capacity(index).min(65535)
}

fn variable_offset(skip: bool) -> u32
    ensures { result ≡ cond skip 2 1 }
{
    if skip { 2 } else { 1 }
}

// Writes the built index where there is room for it: line 0 as it is before its switch is made, then that switch in place of its
// on-demand record, which is the second one, and the lines from 1 on. Line 0 has the clauses in one bucket.
fn write_index(index: &mut [u8], whole: &Clauses, columns: &Columns) -> Result<Built, Refusal>
    requires { 1 ≤ columns.now.lines.rooms.switched.arg }
    ensures { Building result columns.now.lines.rooms.switched.settings.skip index.old index.new (seed_by whole.now columns.now.lines.rooms.switched) (switch_in columns.now 1) (new_lines_by columns.now.lines 1) }
{
    let switched = columns.lines.rooms.switched;
    let capacity = capacity(index);
    let room = rooms::index_room(&whole.tables.opens, &columns.lines.rooms);
    if capacity < room.count {
        return Err(Refusal::NoRoom);
    }
    lines::put_seed(index, whole, switched);
    let table = OnDemand {
        arg: switched.arg,
        at: 1,
        count: room.line,
        line: 0,
        lines: 1,
        capacity,
    };
    expansion::write_switch(index, table, room.more, columns);
    Ok(Built {
        count: room.count,
        variable: variable_offset(switched.settings.skip),
    })
}

// Builds the index of checked code.
fn build_checked(build: &Build, index: &mut [u8]) -> Result<Built, Refusal>
    ensures { built_of result index.new ≡ build_call class_of build.now.program.code.now build.now.program.starts.now build.now.program.settings build.now.c index.old }
{
    let mut first = FirstLine::new();
    let (whole, columns) = first.fill(build);
    write_index(index, &whole, &columns)
}

// Builds the index of the code's clauses, its first switch on argument c, and returns its record count and the variable offset.
// A refusal leaves the buffer as it was; so do all calls the records beyond the count.
pub fn compute_indices(
    code: &[u8],
    starts: &[u32],
    settings: Settings,
    c: u64,
    index: &mut [u8],
) -> Result<Built, Refusal>
    ensures { built_of result index.new ≡ build_call class_of code.now starts.now settings c index.old }
{
    let build = Build::check(code, starts, settings, c)?;
    build_checked(&build, index)
}
