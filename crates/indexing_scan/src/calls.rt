// A call: numbers 10 and 11 of document 01's table, and the key of each argument.
// A u32 becomes a usize by `as`, since there is no From for it: each is proved to fit.
ghost use Rattle.std.specs.Prelude.{◌≡◌, ◌≤◌, length};
ghost use Rattle.records.specs.Records.{records_of};
ghost use Rattle.std.specs.List.{list_all};
ghost use Rattle.indexing.specs.Reading.{key_from};
ghost use Rattle.indexing_scan.specs.Calls.{argument_ok, check_call, call_of, check_out};

use indexing_iter::OptArgIndexKey;
use indexing_iter::refusal::Refusal;
use records::Rec;

// Whether the record of an argument is right: all zero if unbound, else the sort's own fields and no others. The sort is
// a byte of a record that is handed in.
#[tactic(auto, unfolding(crate::specs::Calls::argument_ok))]
fn argument_ok(r: Rec) -> bool
    ensures { result ≡ argument_ok r }
{
    r.kind == 0
        && r.word == 0
        && match r.sub {
            0 => r.half == 0 && r.long == 0,
            1..=3 => r.half == 0,
            4 => 1 <= r.half && r.half <= 255,
            5 => r.half == 0 && r.long == 0,
            _ => false,
        }
}

// Whether every record of a call is right.
fn arguments_ok(call: &[u8]) -> bool
    ensures { result ≡ list_all argument_ok (records_of call.now) }
{
    (0..records::capacity(call)).all(|i| argument_ok(records::get(call, i)))
}

// 10: call not arity records, or a record that is not right.
pub fn check_call(call: &[u8], arity: u32) -> Result<(), Refusal>
    ensures { result ≡ check_call arity call.now }
{
    if call.len() == 16 * (arity as usize) && arguments_ok(call) {
        Ok(())
    } else {
        Err(Refusal::Call)
    }
}

// 11: out shorter than the starts.
pub fn check_out(starts: &[u32], out: &[u32]) -> Result<(), Refusal>
    ensures { result ≡ check_out starts.now out.now }
{
    if out.len() < starts.len() {
        return Err(Refusal::Out);
    }
    Ok(())
}

// A key by its sort, arity and bits. The sort is a byte of a record that is handed in: any number has a key.
pub fn key_from(sub: u8, half: u16, long: u64) -> OptArgIndexKey
    ensures { result ≡ key_from sub half long }
{
    match sub {
        0 => OptArgIndexKey::None,
        4 => OptArgIndexKey::Structure(half, long),
        5 => OptArgIndexKey::List,
        _ => OptArgIndexKey::Literal(u16::from(sub), long),
    }
}

// The key of argument a of a call, none where it is unbound.
#[tactic(auto, unfolding(crate::specs::Calls::call_of))]
pub fn call_key(call: &[u8], a: u32) -> OptArgIndexKey
    requires { (1 ≤ a) × (a ≤ length (records_of call.now)) }
    ensures { result ≡ call_of call.now a }
{
    let r = records::get(call, (a - 1) as usize);
    key_from(r.sub, r.half, r.long)
}
