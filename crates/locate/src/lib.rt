// What refuses code, and where: the refusal of the checks, and the clause and the record first at fault.
// locate, first_open and locate_back answer an Option: they tell what is at fault, and refuse nothing; the definitions at_clause, fault_in and fault_of are
// Options. Code, starts and arity are not checked yet: no struct says anything of them.
// c and j are 0 for none, as in the definition fault_of: locate is public, and any number may be handed in as c.
// A u32 becomes a usize by `as`: there is no From for it.
#![tactic(auto)]

ghost use Rattle.std.specs.Prelude.{◌≡◌, IfOk};
ghost use Rattle.records.specs.Records.{records_of};
ghost use Rattle.indexing_iter.specs.Classes.{class_of};
ghost use Rattle.indexing_iter.specs.Readings.{class_by, clauses_by};
ghost use Rattle.indexing_iter.specs.Checks.{check_keyed};
ghost use Rattle.indexing_iter.specs.Faults.{open_at, bare, fault_in, fault_of};
ghost use Rattle.indexing_iter.specs.Places.{at_clause};
ghost use Rattle.indexing_iter.specs.Programs.{checked_of};
ghost use Rattle.locate.specs.Inner.{check_chosen_with, check_front, check_back};

use indexing_iter::clauses::Clauses;
use indexing_iter::reader::Reader;
use indexing_iter::refusal::Refusal;
use indexing_iter::{Fault, Place, checks};

// A refusal of which no place is told.
fn bare(refusal: Refusal) -> Fault
    ensures { result ≡ bare refusal }
{
    Fault {
        refusal,
        place: None,
    }
}

// 8: the fault of the first clause with no key at argument j; its record is the first body record.
fn first_open(c: &Clauses, j: u32) -> Option<Fault>
    ensures { result ≡ at_clause (class_by c.now.reader) c.now.arity (records_of c.now.reader.code.now) c.now.starts.now (open_at (class_by c.now.reader) j (clauses_by c.now)) (check_keyed (class_by c.now.reader) j (clauses_by c.now)) }
{
    let k = checks::first_open(c, j)?;
    let clause = c.clause(k);
    let at = checks::body_at(&clause).unwrap_or(records::capacity(clause.code));
    let at = c.starts[k] as usize + at;
    Some(Fault {
        refusal: Refusal::OpenClause,
        place: Some(Place { clause: k, at }),
    })
}

// 5 to 7 and, if j is not 0, 8: the first that applies and where.
fn locate_back(c: &Clauses, j: u32) -> Option<Fault>
    ensures { result ≡ fault_in (class_by c.now.reader) c.now.arity j (records_of c.now.reader.code.now) c.now.starts.now (check_back (class_by c.now.reader) c.now.arity j (clauses_by c.now)) }
{
    if let Some(fault) = checks::first_refused(c) {
        return Some(fault);
    }
    if j == 0 {
        return None;
    }
    first_open(c, j)
}

// 1 and, if c is not 0, 2.
fn check_chosen_with(arity: u32, c: u64) -> Result<(), Refusal>
    ensures { result ≡ check_chosen_with arity c }
{
    checks::check_arity(arity)?;
    if c == 0 {
        return Ok(());
    }
    checks::check_chosen(arity, c)
}

// 1 to 4, 2 only if c is not 0: the clauses, where none applies.
fn check_front<'r, 's>(
    reader: &Reader<'r>,
    starts: &'s [u32],
    arity: u32,
    c: u64,
) -> Result<Clauses<'r, 's>, Refusal>
    ensures value { checked_of result ≡ check_front arity c reader.now.code.now starts.now }
    ensures made { IfOk result (λ l. (l.reader ≡ reader.now) × (l.starts.now ≡ starts.now) × (l.arity ≡ arity)) }
{
    check_chosen_with(arity, c)?;
    Clauses::check(reader, starts, arity)
}

// What refuses the code with its starts, and where; c is the chosen argument, 0 for none. It tells and never refuses.
pub fn locate(code: &[u8], starts: &[u32], arity: u32, c: u64) -> Option<Fault>
    ensures { result ≡ fault_of class_of arity c code.now starts.now }
{
    let reader = Reader {
        table: &indexing_iter::classes(),
        code,
    };
    match check_front(&reader, starts, arity, c) {
        // c is at most the arity, or 0: a try_from would have a refusal that cannot come.
        Ok(clauses) => locate_back(&clauses, c as u32),
        Err(refusal) => Some(bare(refusal)),
    }
}
