// The checks of code, starts and settings, numbers 1 to 8 of document 01's table, the first that applies; and the clause and the record at which 5 to 8 fail.
// A u32 becomes a usize by `as`: there is no From for it. Each is proved to fit.
// The loops go by the number of a record: records are sixteen bytes each of a byte buffer, so there is no slice of records to go over.
// check_code and check_build take code, starts and arity one by one: nothing is checked yet, and a Program or a Build is what they are afterwards.
ghost use Rattle.std.specs.Prelude.{◌≡◌, true, ◌+◌, ◌-◌, ◌≤◌, ◌<◌, length, drop};
ghost use Rattle.records.specs.Records.{records_of};
ghost use Rattle.indexing_iter.specs.declared.refusal.Refusal.TheVariants.{NoBody};
ghost use Rattle.indexing_iter.specs.Classes.{class_of};
ghost use Rattle.indexing_iter.specs.Clauses.{end_of};
ghost use Rattle.indexing_iter.specs.Readings.{class_by, clauses_by};
ghost use Rattle.indexing_iter.specs.Checks.{check_arity, check_chosen, check_size, rising_below, check_starts, has_body, key_fields_ok, record_bad, register_bad, check_clause, check_clauses, open_somewhere, check_clauses_of, check_code, check_build};
ghost use Rattle.indexing_iter.specs.Faults.{refused_at, open_at};
ghost use Rattle.indexing_iter.specs.Places.{body_found, passed_through, at_record, open_found, at_clause};

use crate::clauses::Clauses;
use crate::reader::Reader;
use crate::refusal::Refusal;
use crate::{Fault, InstructionArg, Place};
use records::Rec;

// 1: arity outside 1..32.
pub fn check_arity(arity: u32) -> Result<(), Refusal>
    ensures { result ≡ check_arity arity }
{
    if !(1..=32).contains(&arity) {
        return Err(Refusal::Arity);
    }
    Ok(())
}

// 2: c is 0 or above arity.
pub fn check_chosen(arity: u32, c: u64) -> Result<(), Refusal>
    ensures { result ≡ check_chosen arity c }
{
    if c == 0 || u64::from(arity) < c {
        return Err(Refusal::ChosenArgument);
    }
    Ok(())
}

// 3: code not whole records or over 32,768.
pub fn check_size(code: &[u8]) -> Result<(), Refusal>
    ensures { result ≡ check_size code.now }
{
    let len = code.len();
    if len % 16 != 0 || 32768 < len / 16 {
        return Err(Refusal::CodeSize);
    }
    Ok(())
}

// Whether the starts rise strictly and lie below n.
fn rising_below(starts: &[u32], n: usize) -> bool
    requires { 1 ≤ length starts.now }
    ensures { result ≡ rising_below n starts.now }
{
    let mut last = starts[0];
    for &start in &starts[1..] {
        if start <= last {
            return false;
        }
        last = start;
    }
    (last as usize) < n
}

// 4: starts: none, over 1,024, not strictly rising, or at or past the code's end n.
pub fn check_starts(starts: &[u32], n: usize) -> Result<(), Refusal>
    ensures { result ≡ check_starts n starts.now }
{
    if starts.is_empty() || 1024 < starts.len() || !rising_below(starts, n) {
        return Err(Refusal::Starts);
    }
    Ok(())
}

// 6 of a keyed record's fields. A class is a number of a table of bytes (see CLASS), here and in record_bad.
fn key_fields_ok(class: u8, r: Rec) -> bool
    ensures { result ≡ key_fields_ok class r }
{
    match class {
        3 => (1..=255).contains(&r.half),
        5 => (1..=3).contains(&r.half),
        _ => true,
    }
}

// 6 of one record. Of a keyed record with sub 0 the fields are read; with 1 to 3 it is a body record; above 3 one of bits 2 to 7 is set.
// The match on sub lets LLVM test it once.
#[tactic(auto, unfolding(crate::specs::Checks::record_bad))]
pub fn record_bad(class: u8, r: Rec) -> bool
    ensures { result ≡ record_bad class r }
{
    match class {
        3..=6 => match r.sub {
            0 => !key_fields_ok(class, r),
            1..=3 => false,
            _ => true,
        },
        _ => false,
    }
}

// 7 of one register, last the register of the clause's key before it.
pub fn register_bad(arity: u32, last: u32, reg: u32) -> bool
    ensures { result ≡ register_bad arity last reg }
{
    reg == 0 || arity < reg || reg <= last
}

// The first body record of a clause, counted from its start.
// The `let .. else` is that of key_by, here and in pass_through: document 01 names the form, and each does another thing at a record.
pub fn body_at(clause: &Reader) -> Option<usize>
    ensures { result ≡ body_found (class_by clause.now) (records_of clause.now.code.now) }
{
    for i in 0..records::capacity(clause.code) {
        let a = crate::extract_index_arg(clause, i);
        let (InstructionArg::ArgedHead(_, _)
        | InstructionArg::ArglessHead
        | InstructionArg::Prologue) = a
        else {
            return Some(i);
        };
    }
    None
}

// 6 and 7 of a clause, in one pass through its first body record: that record, none where the clause ends without one, or the refusal and its record.
fn pass_through(clause: &Reader, arity: u32) -> Result<Option<usize>, (Refusal, usize)>
    ensures { result ≡ passed_through (class_by clause.now) arity (records_of clause.now.code.now) }
{
    let mut last = 0;
    for i in 0..records::capacity(clause.code) {
        let r = records::get(clause.code, i);
        let class = crate::class_in(clause.table, r.kind);
        if record_bad(class, r) {
            return Err((Refusal::KeyRecord, i));
        }
        let a = crate::arg_of_class(class, r);
        let (InstructionArg::ArgedHead(_, _)
        | InstructionArg::ArglessHead
        | InstructionArg::Prologue) = a
        else {
            return Ok(Some(i));
        };
        if let InstructionArg::ArgedHead(reg, _) = a {
            if register_bad(arity, last, reg) {
                return Err((Refusal::Register, i));
            }
            last = reg;
        }
    }
    Ok(None)
}

// 5, and the record that it is told of: the clause's last.
fn no_body(clause: &Reader) -> (Refusal, usize)
    ensures { result ≡ (NoBody, length (records_of clause.now.code.now) - 1) }
{
    (
        Refusal::NoBody,
        records::capacity(clause.code).saturating_sub(1),
    )
}

// Whether one of the last n records of a clause is a body record.
// It takes how many records are left, and is not inlined: LLVM then counts the records of pass_through by that number alone. With the place of the first in
// its stead, or inlined, the check of accepted code took one or two more instructions a record.
#[inline(never)]
fn body_in_last(clause: &Reader, n: usize) -> bool
    requires { n ≤ length (records_of clause.now.code.now) }
    ensures { result ≡ has_body (class_by clause.now) (drop (length (records_of clause.now.code.now) - n) (records_of clause.now.code.now)) }
{
    let end = records::capacity(clause.code);
    let rest = Reader {
        table: clause.table,
        code: records::part(clause.code, end - n, end),
    };
    body_at(&rest).is_some()
}

// 5 to 7 of a clause, its 5 first, and the record at fault. No record before a 6 or 7 is a body record, so the rest of the clause is searched for one.
// An Option, here and in first_refused: they tell what is at fault, and the definitions at_record and at_clause are Options.
fn refused_in(clause: &Reader, arity: u32) -> Option<(Refusal, usize)>
    ensures { result ≡ at_record (class_by clause.now) arity (records_of clause.now.code.now) (check_clause (class_by clause.now) arity (records_of clause.now.code.now)) }
{
    match pass_through(clause, arity) {
        Ok(Some(_)) => None,
        Ok(None) => Some(no_body(clause)),
        Err((refusal, at)) if body_in_last(clause, records::capacity(clause.code) - at) => {
            Some((refusal, at))
        }
        Err(_) => Some(no_body(clause)),
    }
}

// 5 to 7 of a clause.
pub fn check_clause(clause: &Reader, arity: u32) -> Result<(), Refusal>
    ensures { result ≡ check_clause (class_by clause.now) arity (records_of clause.now.code.now) }
{
    match refused_in(clause, arity) {
        None => Ok(()),
        Some((refusal, _)) => Err(refusal),
    }
}

// Where clause i ends: at the next start, or at n.
pub fn clause_end(starts: &[u32], i: usize, n: usize) -> usize
    requires { i < length starts.now }
    ensures { result ≡ end_of n (drop (i + 1) starts.now) }
{
    match starts.get(i + 1) {
        Some(&next) => next as usize,
        None => n,
    }
}

// 5 to 7: the fault of the first clause that is refused. Clauses go by number: a clause is a start and the next, and its number is told.
pub fn first_refused(clauses: &Clauses) -> Option<Fault>
    ensures { result ≡ at_clause (class_by clauses.now.reader) clauses.now.arity (records_of clauses.now.reader.code.now) clauses.now.starts.now (refused_at (class_by clauses.now.reader) clauses.now.arity (clauses_by clauses.now)) (check_clauses (class_by clauses.now.reader) clauses.now.arity (clauses_by clauses.now)) }
{
    for k in 0..clauses.starts.len() {
        let clause = clauses.clause(k);
        if let Some((refusal, at)) = refused_in(&clause, clauses.arity) {
            let at = clauses.starts[k] as usize + at;
            return Some(Fault {
                refusal,
                place: Some(Place { clause: k, at }),
            });
        }
    }
    None
}

// 8: the first clause with no key at argument j.
pub fn first_open(clauses: &Clauses, j: u32) -> Option<usize>
    ensures { result ≡ open_found (class_by clauses.now.reader) j (clauses_by clauses.now) }
{
    (0..clauses.starts.len()).find(|k| crate::is_open(crate::key_by(&clauses.clause(*k), j)))
}

// 5 to 7, clause by clause, by a table of classes.
fn check_clauses(clauses: &Clauses) -> Result<(), Refusal>
    ensures { result ≡ check_clauses (class_by clauses.now.reader) clauses.now.arity (clauses_by clauses.now) }
{
    match first_refused(clauses) {
        None => Ok(()),
        Some(fault) => Err(fault.refusal),
    }
}

// Whether some clause has no key at c, by a table of classes.
fn open_somewhere(clauses: &Clauses, c: u32) -> bool
    ensures { result ≡ open_somewhere (class_by clauses.now.reader) c (clauses_by clauses.now) }
{
    first_open(clauses, c).is_some()
}

// 3 to 7, of the code with its starts, by a table of classes.
fn check_clauses_of(reader: &Reader, starts: &[u32], arity: u32) -> Result<(), Refusal>
    ensures { result ≡ check_clauses_of (class_by reader.now) arity reader.now.code.now starts.now }
{
    let clauses = Clauses::check(reader, starts, arity)?;
    check_clauses(&clauses)
}

// 1 and 3 to 7: what walk and witness check of the code.
pub fn check_code(code: &[u8], starts: &[u32], arity: u32) -> Result<(), Refusal>
    ensures { result ≡ check_code class_of arity code.now starts.now }
{
    check_arity(arity)?;
    let reader = Reader {
        table: &crate::classes(),
        code,
    };
    check_clauses_of(&reader, starts, arity)
}

// 1 to 8: what the builder checks.
pub fn check_build(code: &[u8], starts: &[u32], arity: u32, c: u64) -> Result<(), Refusal>
    ensures { result ≡ check_build class_of arity c code.now starts.now }
{
    check_arity(arity)?;
    check_chosen(arity, c)?;
    let reader = Reader {
        table: &crate::classes(),
        code,
    };
    let clauses = Clauses::check(&reader, starts, arity)?;
    check_clauses(&clauses)?;
    // c is at most the arity, checked above: a try_from would have a refusal that cannot come.
    if open_somewhere(&clauses, c as u32) {
        return Err(Refusal::OpenClause);
    }
    Ok(())
}
