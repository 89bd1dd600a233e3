// Replays code inputs: prints the numbers that the checks give for each, and the keys of every clause of accepted code.
// tools/replay_keys.py describes the input and makes it, with the expected output.
// Numbers are made usize, and a usize u32 or u64, by `as`: From makes none.
// The name, number, arity, c, code and starts of show and show_case are what the program prints of one case: they stand one by one, as no other function
// takes them.
#![tactic(auto)]

ghost use Rattle.std.specs.Prelude.{◌≡◌, true, ◌*◌, ◌≤◌, length};
ghost use Rattle.indexing_iter.specs.Clauses.{known};

use indexing_iter::program::Program;
use indexing_iter::refusal::Refusal;
use indexing_iter::{Settings, checks};
use records::Rec;

// The number of a check's answer, 0 where it passed: the program prints it.
fn number_of<T>(answer: &Result<T, Refusal>) -> u64 {
    match answer {
        Ok(_) => 0,
        Err(refusal) => u64::from(u32::from(*refusal)),
    }
}

fn print(text: &[u8], n: u64) {
    io::write_all(1, text);
    io::print_decimal(1, n);
}

// The keys of the clause at an offset, in one line.
fn show_clause(program: &Program, offset: u32)
    requires { known program.now.starts.now offset ≡ true }
{
    let mut heads = [0u32; 32];
    let mut bits = [0u64; 32];
    indexing_iter::collect_opt_arg_index_keys(program, offset, &mut heads, &mut bits);
    io::print_decimal(1, u64::from(offset));
    let n = program.settings.arity as usize;
    show_keys(&heads[..n], &bits[..n]);
}

fn show_keys(heads: &[u32], bits: &[u64]) {
    for (head, long) in heads.iter().zip(bits) {
        show_key(*head, *long);
    }
    io::write_all(1, b"\n");
}

// A head is printed in its two parts, the upper and the lower sixteen bits.
fn show_key(head: u32, bits: u64) {
    print(b" ", u64::from(head / 65536));
    print(b",", u64::from(head % 65536));
    print(b",", bits);
}

fn show_clauses(program: &Program) {
    for start in program.starts {
        show_clause(program, *start + 1);
    }
}

// The line of one case; accepted code is given back as a program.
fn show<'a>(
    name: &[u8],
    n: u64,
    arity: u32,
    c: u64,
    code: &'a [u8],
    starts: &'a [u32],
) -> Option<Program<'a>> {
    let settings = Settings::from_flags(arity, 0, 0);
    let checked = Program::check(code, starts, settings);
    let built = checks::check_build(code, starts, arity, c);
    print(name, n);
    print(b" code ", number_of(&checked));
    print(b" build ", number_of(&built));
    io::write_all(1, b"\n");
    checked.ok()
}

// Shows a case, and the keys of accepted code.
fn show_case(n: u64, arity: u32, c: u64, code: &[u8], starts: &[u32]) {
    if let Some(program) = show(b"case ", n, arity, c, code, starts) {
        show_clauses(&program);
    }
}

// Runs the case of a header, its starts and then len bytes of code at the front of rest, and answers what follows it, none where it is too large
// or not whole.
fn run_header<'a>(
    rest: &'a [u8],
    n: u64,
    header: Rec,
    len: usize,
    space: &mut [u32],
) -> Option<&'a [u8]> {
    let k = header.word as usize;
    if space.len() < k || 262144 < len {
        return None;
    }
    let size = len.div_ceil(16);
    let end = records::capacity(rest);
    if end < k + size {
        return None;
    }
    let starts = &mut space[..k];
    records::read_words(rest, 0, starts);
    let from = 16 * k;
    let arity = u32::from(header.half);
    show_case(n, arity, header.long, &rest[from..from + len], starts);
    Some(records::part(rest, k + size, end))
}

// Runs the case at the front of an input, and answers what follows it, none where no whole case is left.
fn run_case(input: &[u8], n: u64) -> Option<&[u8]> {
    let count = records::capacity(input);
    if count < 2 {
        return None;
    }
    let rest = records::part(input, 2, count);
    let first = records::get(input, 0);
    let second = records::get(input, 1);
    let mut space = [0u32; 1100];
    run_header(rest, n, first, second.word as usize, &mut space)
}

fn run_cases(input: &[u8]) {
    let mut rest = input;
    for n in 0..100000 {
        let Some(after) = run_case(rest, n) else {
            return;
        };
        rest = after;
    }
}

// One clause of all the records of code: GetList in register 1, prologue records, a body record. The bytes are 0 before.
fn show_records(code: &mut [u8])
    requires { 32 ≤ length code.old }
{
    let n = records::capacity(code);
    let last = code.len() - 16;
    code[0] = 17;
    code[4] = 1;
    code[last] = 64;
    let starts = [0u32];
    show(b"records ", n as u64, 1, 1, code, &starts);
}

fn run_records(n: usize)
    requires { (2 ≤ n) × (n ≤ 32769) }
{
    let mut code = [0u8; 524304];
    show_records(&mut code[..16 * n]);
}

fn set_bodies(code: &mut [u8], starts: &mut [u32])
    requires starts_in_bounds { 16 * length starts.old ≤ length code.old }
    requires starts_len_bound { length starts.old ≤ 1025 }
{
    for (i, start) in starts.iter_mut().enumerate() {
        code[16 * i] = 64;
        *start = i as u32;
    }
}

// A clause of one body record for each start.
fn show_starts(code: &mut [u8], starts: &mut [u32])
    requires starts_in_bounds { 16 * length starts.old ≤ length code.old }
    requires starts_len_bound { length starts.old ≤ 1025 }
{
    set_bodies(code, starts);
    show(b"starts ", starts.len() as u64, 1, 1, code, starts);
}

fn run_starts(n: usize)
    requires { n ≤ 1025 }
{
    let mut code = [0u8; 16400];
    let mut starts = [0u32; 1025];
    show_starts(&mut code[..16 * n], &mut starts[..n]);
}

fn main() {
    let mut input = [0u8; 262144];
    let n = io::read_full(0, &mut input);
    run_cases(&input[..n]);
    run_records(32767);
    run_records(32768);
    run_records(32769);
    run_starts(1023);
    run_starts(1024);
    run_starts(1025);
}
