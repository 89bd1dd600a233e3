// The way through a stored index: from table to table, from line to line, a line's offsets, and the choice in a switch.
// Places count records.
// p ≤ stored.count is asked of each function that begins at a place: a place is another number in each call.
ghost use Rattle.std.specs.Prelude.{◌≡◌, ◌+◌, ◌≤◌, ◌<◌, ℕ, Bool, length};
ghost use Rattle.std.proofs.Math.Seq.{slice};
ghost use Rattle.records.specs.declared.Rec.{Rec};
ghost use Rattle.records.specs.Records.{records_of};
ghost use Rattle.indexing_iter.specs.Groups.{group_code};
ghost use Rattle.indexing.specs.Columns.{words_of};
ghost use Rattle.indexing_scan.specs.Places.{is_item, is_table, is_offset, leaves, up_to, count_of, records_by, behind_table, behind_line, first_offset, offsets_at, in_group, has_key, choose_rec};
ghost use Rattle.indexing_scan.specs.Tests.{Computes};

use crate::stored_index::Stored;
use indexing::kinds::Kind;
use indexing_iter::OptArgIndexKey;
use indexing_iter::group::Group;
use records::Rec;

// What a switch chose: nothing, the only entry of the group, or the equal key among several; with the entry's pointer.
// Two cases have a pointer: choose_entry is public and promises which of them a table was (the path of document 02, A.10, tells it).
#[derive(Clone, Copy, Debug, PartialEq, Eq)]
pub enum Chosen {
    Nothing,
    Only(u32),
    Equal(u32),
}

// Whether a record is an entry or a dead clause.
fn is_item(r: Rec) -> bool
    ensures { result ≡ is_item r.kind }
{
    matches!(Kind::try_from(r.kind), Ok(Kind::Entry | Kind::DeadClause))
}

// Whether a record is an offset of a line.
fn is_offset(r: Rec) -> bool
    ensures { result ≡ is_offset r.kind }
{
    matches!(Kind::try_from(r.kind), Ok(Kind::Choice))
}

// Whether a record of that kind is a table's own. Any byte may be asked: a `Kind` asks more of callers.
pub fn is_table(kind: u8) -> bool
    ensures { result ≡ is_table kind }
{
    matches!(
        Kind::try_from(kind),
        Ok(Kind::Switch | Kind::OnDemand | Kind::Dead)
    )
}

// The place of the first of some records that passes a test, or the number of them. Records are sixteen bytes of a byte
// buffer: there is no slice of them to go over.
// The found place is the value of a block that is left by `break`: document 01 has this form.
fn find_record<F: Fn(Rec) -> bool>(run: &[u8], test: F) -> usize
    requires calls { F.IsAlwaysCallable test }
    ensures first { (t : Rec → Bool) → Computes (F.post test) t → result ≡ up_to t (records_of run.now) }
    ensures within { result ≤ length (records_of run.now) }
{
    let n = records::capacity(run);
    'found: {
        for i in 0..n {
            if test(records::get(run, i)) {
                break 'found i;
            }
        }
        n
    }
}

// The number of records in the run that starts at p, whose records pass a test of their kinds.
fn run_length<F: Fn(Rec) -> bool>(stored: &Stored, p: usize, in_run: F) -> usize
    requires calls { F.IsAlwaysCallable in_run }
    requires place { p ≤ stored.now.count }
    ensures value { (t : ℕ → Bool) → Computes (F.post in_run) (λ r. t r.kind)
        → result ≡ up_to (leaves t) (slice p stored.now.count (records_of stored.now.index.now)) }
    ensures within { p + result ≤ stored.now.count }
{
    let rest = records::part(stored.index, p, stored.count);
    find_record(rest, |r| !in_run(r))
}

// The place behind the table whose record is at p: its entries or dead clauses are passed.
pub fn skip_items(stored: &Stored, p: usize) -> usize
    requires { p < stored.now.count }
    ensures { (result ≡ behind_table (records_by stored.now) p) × (p < result) × (result ≤ stored.now.count) }
{
    p + 1 + run_length(stored, p + 1, is_item)
}

// The place behind all tables from p on, where the offsets of the line start.
pub fn first_offset(stored: &Stored, p: usize) -> usize
    requires { p ≤ stored.now.count }
    ensures { (result ≡ first_offset (records_by stored.now) p) × (result ≤ stored.now.count) }
{
    p + run_length(stored, p, |r| is_table(r.kind) || is_item(r))
}

// The number of offsets from q on.
pub fn count_offsets(stored: &Stored, q: usize) -> usize
    requires { q ≤ stored.now.count }
    ensures { (result ≡ offsets_at (records_by stored.now) q) × (q + result ≤ stored.now.count) }
{
    run_length(stored, q, is_offset)
}

// The place behind the d-th line record from p on. The number of lines left is carried from record to record, and ends
// the search before the record that it is 0 at: no iterator's method says that as plainly.
pub fn to_line(stored: &Stored, p: usize, d: u32) -> usize
    requires { p ≤ stored.now.count }
    ensures { (result ≡ behind_line (records_by stored.now) p d) × (result ≤ stored.now.count) }
{
    let mut left = d;
    for i in p..stored.count {
        if left == 0 {
            return i;
        }
        if records::get(stored.index, i).kind == u8::from(Kind::Line) {
            left -= 1;
        }
    }
    stored.count
}

// Copies the words of the records from q on, as many as out has places.
#[tactic(auto, unfolding(indexing::specs::Columns::words_of))]
pub fn copy_offsets(index: &[u8], q: usize, out: &mut [u32])
    requires { q + length out.old ≤ length (records_of index.now) }
    ensures { out.new ≡ words_of (slice q (q + length out.old) (records_of index.now)) }
{
    records::read_words(index, q, out);
}

#[tactic(auto, using(crate::proofs::GroupCodes::group_codes), unfolding(crate::specs::Places::in_group))]
fn in_group(r: Rec, g: Option<Group>) -> bool
    ensures { result ≡ in_group (group_code g) r }
{
    g == well_formed::forms::group_by_sort(r.sub)
}

#[tactic(auto, unfolding(crate::specs::Places::has_key))]
fn has_key(r: Rec, q: OptArgIndexKey) -> bool
    ensures { result ≡ has_key q r }
{
    indexing_iter::same_key(crate::calls::key_from(r.sub, r.half, r.long), q)
}

// How many of the entries are of group g.
fn count_group(entries: &[u8], g: Option<Group>) -> usize
    ensures { result ≡ count_of (in_group (group_code g)) (records_of entries.now) }
{
    (0..records::capacity(entries))
        .filter(|i| in_group(records::get(entries, *i), g))
        .count()
}

// The choice in the switch whose entries stand from one place up to another: no entry of the key's group, nothing; one,
// that entry whatever its key; more, the equal key.
// It is public and takes (index, from, to) as the walk has them: with a Stored, `to` would be bounded by its count, which asks more of callers.
pub fn choose_entry(index: &[u8], from: usize, to: usize, q: OptArgIndexKey) -> Chosen
    requires { (from ≤ to) × (to ≤ length (records_of index.now)) }
    ensures { result ≡ choose_rec q (slice from to (records_of index.now)) }
{
    let g = indexing_iter::group_of(q);
    let entries = records::part(index, from, to);
    let count = count_group(entries, g);
    if count == 0 {
        return Chosen::Nothing;
    }
    if count == 1 {
        let place = find_record(entries, |r| in_group(r, g));
        return Chosen::Only(records::get(entries, place).word);
    }
    let place = find_record(entries, |r| has_key(r, q));
    if records::capacity(entries) <= place {
        return Chosen::Nothing;
    }
    Chosen::Equal(records::get(entries, place).word)
}
