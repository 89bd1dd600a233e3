// The witness: the offset of some clause that agrees with a call, from code and call alone.
// Code, starts and settings stand one by one where nothing is checked yet: a Program is what they are afterwards.
ghost use Rattle.std.specs.Prelude.{◌≡◌, true};
ghost use Rattle.indexing_iter.specs.Classes.{class_of};
ghost use Rattle.indexing_iter.specs.Clauses.{known};
ghost use Rattle.indexing_scan.specs.Agree.{agree_at, agree};
ghost use Rattle.indexing_scan.specs.Calls.{witness_checks, agreeing};
ghost use Rattle.indexing_scan.specs.Readings.{predicate_of, asked_by};
ghost use Rattle.indexing_scan.specs.Witness.{Witnesses, first_of};

use crate::calls;
use crate::query::Query;
use indexing_iter::program::Program;
use indexing_iter::refusal::Refusal;
use indexing_iter::{OptArgIndexKey, Settings};

// Whether the call's key q and a clause's key k agree: one is none, or they are equal.
fn agree_at(q: OptArgIndexKey, k: OptArgIndexKey) -> bool
    ensures { result ≡ agree_at q k }
{
    indexing_iter::is_open(q) || indexing_iter::is_open(k) || indexing_iter::same_key(k, q)
}

// Whether the clause at a known offset agrees with the call at every argument.
fn agrees(query: &Query, offset: u32) -> bool
    requires { known query.now.program.starts.now offset ≡ true }
    ensures { result ≡ agree (predicate_of query.now.program) (asked_by query.now) offset }
{
    (1..=query.program.settings.arity).all(|a| agree_at(
        calls::call_key(query.call, a),
        indexing_iter::key_of(&query.program, offset, a),
    ))
}

// The offset of the first clause that agrees with the call.
fn first_agreeing(query: &Query) -> Option<u32>
    ensures { result ≡ first_of (agreeing class_of query.now.program.code.now query.now.program.starts.now query.now.program.settings query.now.call.now) }
{
    query
        .program
        .starts
        .iter()
        .map(|start| *start + 1)
        .find(|offset| agrees(query, *offset))
}

// The offset of some clause that agrees with the call, none if there is none; refused with the first of 1, 3 to 7 and 10
// that applies.
pub fn witness(
    code: &[u8],
    starts: &[u32],
    settings: Settings,
    call: &[u8],
) -> Result<Option<u32>, Refusal>
    ensures { Witnesses (witness_checks class_of code.now starts.now settings call.now)
        (agreeing class_of code.now starts.now settings call.now) result }
{
    let program = Program::check(code, starts, settings)?;
    calls::check_call(call, settings.arity)?;
    let query = Query { program, call };
    Ok(first_agreeing(&query))
}
