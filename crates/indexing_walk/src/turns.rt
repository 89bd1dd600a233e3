// One turn of a walk: what is done at the table, or at the end of the tables, that the walk has come to.
// (query, index, w, list, tags) are no struct: index, list and tags are lent to be written in each turn, and the walk is a value that a turn gives back.
// A struct of the lent buffers would make each contract speak of the states of its fields.
// is_open q ≡ false is asked of turn_bound and turn_unstored: turn has looked whether the call's key is bound.
// w.count ≤ length (records_of index) is asked by functions that read index: a Walking is a value of the definitions and holds no index. A Stored in place
// of index would be asked to have w's count.
// a ≤ 64 and w.tables ≤ 64 are asked where one is added to them: both are numbers of the definitions (see Walking).
ghost use Rattle.std.specs.Prelude.{◌≡◌, ◌+◌, ◌≤◌, ◌<◌, length, drop, cond, true, false, ◌++◌, eqb};
ghost use Rattle.std.proofs.Math.Seq.{slice};
ghost use Rattle.records.specs.Records.{records_of};
ghost use Rattle.indexing_iter.specs.Keys.{is_open};
ghost use Rattle.indexing_scan.specs.declared.case.Case.TheVariants.{Sequence, Variadic};
ghost use Rattle.indexing.specs.Columns.{words_of};
ghost use Rattle.indexing_scan.specs.Places.{is_table, records_by, behind_table, choose_rec, first_offset, offsets_at};
ghost use Rattle.indexing_scan.specs.Readings.{asked_by};
ghost use Rattle.indexing_walk.specs.Walking.{followed_by, looked_by, moved_to, ended_by, turned_by, ListedBy, stored_in, record_at, StandsIn, Demands, TurnsBy};

use crate::{Ended, Looked, Walking, store};
use indexing::kinds::Kind;
use indexing_iter::OptArgIndexKey;
use indexing_scan::case::Case;
use indexing_scan::query::Query;
use indexing_scan::stored::Chosen;
use indexing_scan::stored_index::Stored;
use indexing_scan::unstored::Narrowed;
use records::Rec;
use std::ops::ControlFlow;

// Follows a pointer from place p in line l.
fn follow(stored: &Stored, p: usize, l: u32, word: u32) -> Looked
    requires { (p ≤ stored.now.count) × (l ≤ 65535) }
    ensures { result ≡ followed_by (records_by stored.now) p l word }
{
    if records::pointer::is_internal(word) {
        let d = records::pointer::distance(word);
        return Looked::Enter(l + d, indexing_scan::stored::to_line(stored, p, d));
    }
    Looked::External(word)
}

// The switch at the walk's place, looked at with the key q.
fn look_switch(index: &[u8], w: Walking, q: OptArgIndexKey) -> Looked
    requires { (w.at < w.count) × (w.count ≤ length (records_of index.now)) × (w.line ≤ 65535) }
    ensures { let rs = stored_in index.now w in
        result ≡ looked_by rs w.at w.line (choose_rec q (slice (w.at + 1) (behind_table rs w.at) (records_of index.now))) }
{
    let stored = w.stored(index);
    let end = indexing_scan::stored::skip_items(&stored, w.at);
    match indexing_scan::stored::choose_entry(index, w.at + 1, end, q) {
        Chosen::Nothing => Looked::Failed,
        Chosen::Only(word) | Chosen::Equal(word) => follow(&stored, w.at, w.line, word),
    }
}

// The walk at place p of line l, after one more table, which was for argument a.
fn moved_to(w: Walking, l: u32, p: usize, a: u32) -> Walking
    requires { (w.tables ≤ 64) × (a ≤ 64) }
    ensures { result ≡ moved_to w l p a }
{
    Walking {
        line: l,
        at: p,
        from: a + 1,
        tables: w.tables + 1,
        ..w
    }
}

// The walk ended in a case, with a line number and so many offsets, after some more tables.
fn end_with(w: Walking, case: Case, line: u32, count: usize, more: u32) -> Ended
    requires { (w.tables ≤ 64) × (more ≤ 64) }
    ensures { result ≡ ended_by w case line count more }
{
    Ended {
        case,
        line,
        count,
        tables: w.tables + more,
        whole: w.storing,
        records: w.count,
    }
}

// The turn at a switch for argument a, by what it leads to. An external pointer's offset is put at the front of the list.
fn turn_by(w: Walking, a: u32, x: Looked, list: &mut [u32]) -> ControlFlow<Ended, Walking>
    requires { (w.tables ≤ 64) × (a ≤ 64) × (1 ≤ length list.old) }
    ensures value { result ≡ turned_by w a x }
    ensures listed_by { ListedBy x list.new }
{
    match x {
        Looked::Failed => ControlFlow::Break(end_with(w, Case::Fail, 0, 0, 1)),
        Looked::External(o) => {
            list[0] = o;
            ControlFlow::Break(end_with(w, Case::External, 0, 1, 1))
        }
        Looked::Enter(l, p) => ControlFlow::Continue(moved_to(w, l, p, a)),
    }
}

// No table is left: the offsets of the line are put at the front of the list.
fn end_line(index: &[u8], w: Walking, list: &mut [u32]) -> Ended
    requires at_le_count { (w.at ≤ w.count) × (w.count ≤ length (records_of index.now)) × (w.tables ≤ 64) }
    requires at_in_bounds { offsets_at (stored_in index.now w) w.at ≤ length list.old }
    ensures value { result ≡ ended_by w (cond (eqb w.line 0) Variadic Sequence) w.line (offsets_at (stored_in index.now w) w.at) 0 }
    ensures list_after { let k = offsets_at (stored_in index.now w) w.at in
        list.new ≡ words_of (slice w.at (w.at + k) (records_of index.now)) ++ drop k list.old }
{
    let stored = w.stored(index);
    let k = indexing_scan::stored::count_offsets(&stored, w.at);
    indexing_scan::stored::copy_offsets(index, w.at, &mut list[..k]);
    let case = if w.line == 0 {
        Case::Variadic
    } else {
        Case::Sequence
    };
    end_with(w, case, w.line, k, 0)
}

// Reads the offsets of the walk's line to the front of the list, and gives their number.
fn read_line(index: &[u8], w: Walking, list: &mut [u32]) -> usize
    requires at_le_count { (w.at ≤ w.count) × (w.count ≤ length (records_of index.now)) }
    requires at_in_bounds { let rs = stored_in index.now w in offsets_at rs (first_offset rs w.at) ≤ length list.old }
    ensures { let rs = stored_in index.now w in
        let q = first_offset rs w.at in
        (result ≡ offsets_at rs q) × (list.new ≡ words_of (slice q (q + result) (records_of index.now)) ++ drop result list.old) }
{
    let stored = w.stored(index);
    let q = indexing_scan::stored::first_offset(&stored, w.at);
    let k = indexing_scan::stored::count_offsets(&stored, q);
    indexing_scan::stored::copy_offsets(index, q, &mut list[..k]);
    k
}

// To the next table: the one at the walk's place was for argument a.
fn pass_table(index: &[u8], w: Walking, a: u32) -> Walking
    requires { (w.at < w.count) × (w.count ≤ length (records_of index.now)) × (w.tables ≤ 64) × (a ≤ 64) }
    ensures { result ≡ moved_to w w.line (behind_table (stored_in index.now w) w.at) a }
{
    let stored = w.stored(index);
    let p = indexing_scan::stored::skip_items(&stored, w.at);
    moved_to(w, w.line, p, a)
}

// The turn at an on-demand table for argument a, with the bound key q, where nothing is stored any more: the answer is worked out from the
// clauses of the line.
fn turn_unstored(
    query: &Query,
    index: &[u8],
    w: Walking,
    a: u32,
    q: OptArgIndexKey,
    list: &mut [u32; 1024],
) -> ControlFlow<Ended, Walking>
    requires stands { StandsIn query.now.program index.now w }
    requires off { w.storing ≡ false }
    requires table { Demands index.now w a }
    requires q_value { (q ≡ asked_by query.now a) × (is_open q ≡ false) }
    ensures { TurnsBy query.now index.now w index.now list.new result }
{
    let m = read_line(index, w, list);
    match indexing_scan::unstored::demand_at(&query.program, &mut list[..m], a, q) {
        Narrowed::NoTable => ControlFlow::Continue(w),
        Narrowed::Passed(_) => ControlFlow::Continue(pass_table(index, w, a)),
        Narrowed::Failed => ControlFlow::Break(end_with(w, Case::Fail, 0, 0, 1)),
        Narrowed::Single(_, _) => ControlFlow::Break(end_with(w, Case::External, 0, 1, 1)),
        Narrowed::Bucket(_, k) => {
            let f = indexing_scan::unstored::finish(query, &mut list[..k], a + 1);
            ControlFlow::Break(end_with(w, f.case, 0, f.count, 1 + f.tables))
        }
    }
}

// The turn at a table, with the bound key q of its argument.
fn turn_bound(
    query: &Query,
    index: &mut [u8],
    w: Walking,
    table: Rec,
    q: OptArgIndexKey,
    list: &mut [u32; 1024],
    tags: &mut [u8; 1024],
) -> ControlFlow<Ended, Walking>
    requires stands { StandsIn query.now.program index.old w }
    requires table_value { (table ≡ record_at index.old w) × (is_table table.kind ≡ true) }
    requires q_value { (q ≡ asked_by query.now table.half) × (is_open q ≡ false) }
    ensures { TurnsBy query.now index.old w index.new list.new result }
{
    let a = u32::from(table.half);
    match Kind::try_from(table.kind) {
        Ok(Kind::Dead) => ControlFlow::Continue(pass_table(index, w, a)),
        Ok(Kind::Switch) => turn_by(w, a, look_switch(index, w, q), list),
        // On demand: no other kind is a table's.
        _ if w.storing => ControlFlow::Continue(store::turn_store(
            &query.program,
            index,
            w,
            a,
            list,
            tags,
        )),
        _ => turn_unstored(query, index, w, a, q, list),
    }
}

// One turn of a walk.
pub fn turn(
    query: &Query,
    index: &mut [u8],
    w: Walking,
    list: &mut [u32; 1024],
    tags: &mut [u8; 1024],
) -> ControlFlow<Ended, Walking>
    requires { StandsIn query.now.program index.old w }
    ensures { TurnsBy query.now index.old w index.new list.new result }
{
    let r = records::record_in(index, w.count, w.at);
    if !indexing_scan::stored::is_table(r.kind) {
        return ControlFlow::Break(end_line(index, w, list));
    }
    let a = u32::from(r.half);
    let q = indexing_scan::calls::call_key(query.call, a);
    if indexing_iter::is_open(q) {
        return ControlFlow::Continue(pass_table(index, w, a));
    }
    turn_bound(query, index, w, r, q, list, tags)
}
