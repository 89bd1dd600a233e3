// The face for programs in C and Rust: builder, size, fault, walk and witness over slices and numbers, with the results as numbers in a lent array.
// include/podrulka.h declares the functions and says what each number means.
// In podrulka_build, podrulka_size, podrulka_locate, podrulka_walk and podrulka_witness code, starts, arity, mask, flags, c and buffers stand one by one,
// an index with its record count beside it, a result as numbers: the C interface.
// A usize is made a u64 by `as`: there is no From for it.
#![tactic(auto)]

ghost use Rattle.std.specs.Prelude.{◌≡◌, [], ◌∷◌, ◌≤◌};
ghost use Rattle.indexing_iter.specs.Refusals.{number_of};
ghost use Rattle.indexing_iter.specs.Classes.{class_of};
ghost use Rattle.indexing_iter.specs.Faults.{fault_of};
ghost use Rattle.indexing.specs.Builder.{build_call, size_call};
ghost use Rattle.indexing_scan.specs.Calls.{walk_call, witness_checks, agreeing};
ghost use Rattle.indexing_scan.specs.Witness.{found_in};
ghost use Rattle.indexing_walk.specs.Answers.{told_by};
ghost use Rattle.podrulka.specs.Face.{settings_by, laid, built_numbers, sized_numbers, fault_numbers, walked_numbers, number_told, numbers_told, Found};

use indexing_builder::Built;
use indexing_iter::refusal::Refusal;
use indexing_iter::{Fault, Settings};
use indexing_walk::Ended;

// Writes values to the first places of res, as many as it has.
fn lay(values: &[u64], res: &mut [u64])
    ensures { res.new ≡ laid values.now res.old }
{
    let n = values.len().min(res.len());
    res[..n].copy_from_slice(&values[..n]);
}

// Writes an answer's values, or the refusal's number and zeros, and returns the number.
fn lay_answer<const N: usize>(answer: Result<[u64; N], Refusal>, res: &mut [u64]) -> u32
    requires { (2 ≤ N) × (N ≤ 7) }
    ensures value { result ≡ number_told answer.entry }
    ensures res_after { res.new ≡ laid (numbers_told N answer.entry) res.old }
{
    match answer {
        Ok(values) => {
            lay(&values, res);
            0
        }
        Err(e) => {
            let number = u32::from(e);
            let mut values = [0; N];
            values[0] = u64::from(number);
            lay(&values, res);
            number
        }
    }
}

// The values of the builder's answer.
fn built_values(b: Built) -> [u64; 3]
    ensures { result ≡ 0 ∷ b.count ∷ b.variable ∷ [] }
{
    [0, b.count as u64, u64::from(b.variable)]
}

// The value of the size's answer.
fn sized_values(count: usize) -> [u64; 2]
    ensures { result ≡ 0 ∷ count ∷ [] }
{
    [0, count as u64]
}

// The value of the witness's answer, 0 where no clause agrees.
fn found_values(offset: Option<u32>) -> [u64; 2]
    ensures { result ≡ 0 ∷ found_in offset ∷ [] }
{
    [0, u64::from(offset.unwrap_or(0))]
}

// The values of a walk's answer; the mark is 0 stored, 1 unstored.
fn walked_values(e: Ended) -> [u64; 7]
    ensures { result ≡ walked_numbers (told_by e [] []) }
{
    let mark = u64::from(!e.whole);
    [
        0,
        u64::from(e.case),
        u64::from(e.line),
        e.count as u64,
        u64::from(e.tables),
        mark,
        e.records as u64,
    ]
}

// The values of a fault, zeros where there is none, and where it has no place.
fn fault_values(fault: Option<Fault>) -> [u64; 3]
    ensures { result ≡ fault_numbers fault }
{
    let Some(f) = fault else {
        return [0; 3];
    };
    let number = u64::from(u32::from(f.refusal));
    match f.place {
        Some(p) => [number, p.clause as u64, p.at as u64],
        None => [number, 0, 0],
    }
}

// The builder. Returns 0 or the refusal's number; res gets number, record count, variable offset.
#[unsafe(no_mangle)]
pub extern "C" fn podrulka_build(
    code: &[u8],
    starts: &[u32],
    arity: u32,
    mask: u32,
    flags: u32,
    c: u64,
    index: &mut [u8],
    res: &mut [u64],
) -> u32
    ensures value { result ≡ (build_call class_of code.now starts.now (settings_by arity mask flags) c index.old).number }
    ensures index_after { index.new ≡ (build_call class_of code.now starts.now (settings_by arity mask flags) c index.old).index }
    ensures res_after { res.new ≡ laid (built_numbers (build_call class_of code.now starts.now (settings_by arity mask flags) c index.old)) res.old }
{
    let settings = Settings::from_flags(arity, mask, flags);
    let a = indexing_builder::compute_indices(code, starts, settings, c, index);
    lay_answer(a.map(built_values), res)
}

// The size of the index that the builder would write, whatever the room. Returns 0 or the refusal's number; res gets number, record count.
#[unsafe(no_mangle)]
pub extern "C" fn podrulka_size(
    code: &[u8],
    starts: &[u32],
    arity: u32,
    mask: u32,
    flags: u32,
    c: u64,
    res: &mut [u64],
) -> u32
    ensures value { result ≡ (size_call class_of code.now starts.now (settings_by arity mask flags) c).number }
    ensures res_after { res.new ≡ laid (sized_numbers (size_call class_of code.now starts.now (settings_by arity mask flags) c)) res.old }
{
    let settings = Settings::from_flags(arity, mask, flags);
    let a = index_size::index_size(code, starts, settings, c);
    lay_answer(a.map(sized_values), res)
}

// What refuses code, starts, arity and c, c 0 for none; mask and flags refuse nothing. Returns 0; res gets the number, and the clause and
// the record first at fault.
#[unsafe(no_mangle)]
pub extern "C" fn podrulka_locate(
    code: &[u8],
    starts: &[u32],
    arity: u32,
    mask: u32,
    flags: u32,
    c: u64,
    res: &mut [u64],
) -> u32
    ensures value { result ≡ 0 }
    ensures res_after { res.new ≡ laid (fault_numbers (fault_of class_of arity c code.now starts.now)) res.old }
{
    let fault = locate::locate(code, starts, arity, c);
    lay(&fault_values(fault), res);
    0
}

// The walk of a call through an index of count records. Returns 0 or the refusal's number; res gets number, case, line, count of offsets
// in out, tables looked at, mark, new record count.
#[unsafe(no_mangle)]
pub extern "C" fn podrulka_walk(
    code: &[u8],
    starts: &[u32],
    arity: u32,
    mask: u32,
    flags: u32,
    call: &[u8],
    index: &mut [u8],
    count: usize,
    out: &mut [u32],
    res: &mut [u64],
) -> u32
    ensures value { result ≡ (walk_call class_of code.now starts.now (settings_by arity mask flags) call.now index.old count out.old).number }
    ensures index_after { index.new ≡ (walk_call class_of code.now starts.now (settings_by arity mask flags) call.now index.old count out.old).index }
    ensures out_after { out.new ≡ (walk_call class_of code.now starts.now (settings_by arity mask flags) call.now index.old count out.old).out }
    ensures res_after { res.new ≡ laid (walked_numbers (walk_call class_of code.now starts.now (settings_by arity mask flags) call.now index.old count out.old)) res.old }
{
    let settings = Settings::from_flags(arity, mask, flags);
    let a = indexing_walk::switch_on_term(code, starts, settings, call, index, count, out);
    lay_answer(a.map(walked_values), res)
}

// The witness. Returns 0 or the refusal's number; res gets number, offset of some clause that agrees with the call, 0 if there is none.
#[unsafe(no_mangle)]
pub extern "C" fn podrulka_witness(
    code: &[u8],
    starts: &[u32],
    arity: u32,
    mask: u32,
    flags: u32,
    call: &[u8],
    res: &mut [u64],
) -> u32
    ensures value { result ≡ number_of (witness_checks class_of code.now starts.now (settings_by arity mask flags) call.now) }
    ensures found { Found (witness_checks class_of code.now starts.now (settings_by arity mask flags) call.now)
        (agreeing class_of code.now starts.now (settings_by arity mask flags) call.now) res.old res.new }
{
    let settings = Settings::from_flags(arity, mask, flags);
    let a = indexing_scan::witness::witness(code, starts, settings, call);
    lay_answer(a.map(found_values), res)
}
