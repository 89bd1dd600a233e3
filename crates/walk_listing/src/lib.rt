// What the program walks prints of an input.
// A text is filled from its end, so the place where it begins stands beside it: it is a result that is handed on. An index stands with its record
// count beside it, as calls are handed both.
// A usize is made a u64 by `as`: From makes none.
// put_offsets and print_some fill and print a text by a rule of their own, as put_lines and print_lines of listing do by theirs: one function over a
// closure would promise less of the text.
#![tactic(auto)]

ghost use Rattle.std.specs.Prelude.{◌≡◌, [], ◌∷◌, ◌++◌, ◌+◌, ◌≤◌, length, drop};
ghost use Rattle.listing.specs.Text.{decimal};
ghost use Rattle.walk_inputs.specs.Plan.{heard_of};
ghost use Rattle.walk_inputs.specs.Run.{calls_of, held, Handed};
ghost use Rattle.walk_listing.specs.Text.{case_word, mark_word, ended_text, offsets_text};

use indexing_iter::refusal::Refusal;
use indexing_scan::case::Case;
use indexing_walk::Ended;
use walk_inputs::Begun;

// The first line: how the run begins. Answers the index's record count where it is not refused.
fn print_first(a: Result<Begun, Refusal>) -> Option<usize> {
    match a {
        Ok(Begun::Built(built)) => {
            io::write_all(1, b"built ");
            io::print_decimal(1, built.count as u64);
            listing::print_numbered(b" ", u64::from(built.variable));
            Some(built.count)
        }
        Ok(Begun::Given(count)) => {
            listing::print_numbered(b"given ", count as u64);
            Some(count)
        }
        Err(e) => {
            listing::print_refusal(e);
            None
        }
    }
}

// Puts a word before a place, and answers where it begins.
fn put_word(text: &mut [u8], end: usize, word: &[u8]) -> usize
    requires { (length word.now ≤ end) × (end ≤ length text.old) }
    ensures word_value { result + length word.now ≡ end }
    ensures text_after { drop result text.new ≡ word.now ++ drop end text.old }
{
    let at = end - word.len();
    text[at..end].copy_from_slice(word);
    at
}

// The word of a walk's case.
fn case_word(case: Case) -> &'static [u8]
    ensures value { result.now ≡ case_word case }
    ensures len_bound { length result.now ≤ 14 }
{
    match case {
        Case::Fail => b"walk fail ",
        Case::External => b"walk external ",
        Case::Sequence => b"walk sequence ",
        Case::Variadic => b"walk variadic ",
    }
}

// The word that says whether the whole walk was stored.
fn mark_word(whole: bool) -> &'static [u8]
    ensures value { result.now ≡ mark_word whole }
    ensures len_bound { length result.now ≤ 9 }
{
    if whole { b"stored " } else { b"unstored " }
}

// Puts an answer without its offsets at the end of text, its last word first, and answers where it begins.
fn put_ended(text: &mut [u8; 106], e: Ended) -> usize
    ensures upper_bound { result ≤ 106 }
    ensures text_after { drop result text.new ≡ ended_text e [] }
{
    let records_at = listing::put_number(text, 106, e.records as u64);
    let mark_at = put_word(text, records_at, mark_word(e.whole));
    let tables_at = listing::put_field(text, mark_at, u64::from(e.tables), b' ');
    let count_at = listing::put_field(text, tables_at, e.count as u64, b' ');
    let line_at = listing::put_field(text, count_at, u64::from(e.line), b' ');
    put_word(text, line_at, case_word(e.case))
}

fn print_head(text: &mut [u8; 106], e: Ended) {
    let at = put_ended(text, e);
    io::write_all(1, &text[at..]);
}

// Puts an offset and the blank before it before a place.
fn put_offset(text: &mut [u8], end: usize, offset: u32) -> usize
    requires { (21 ≤ end) × (end ≤ length text.old) }
    ensures end_bound { (end ≤ result + 21) × (result ≤ end) }
    ensures text_after { drop result text.new ≡ 32 ∷ decimal offset (drop end text.old) }
{
    let at = listing::put_number(text, end, u64::from(offset));
    let blank = at - 1;
    text[blank] = b' ';
    blank
}

// Puts offsets at the end of text, the last one first, and answers where they begin.
fn put_offsets(text: &mut [u8; 2688], out: &[u32]) -> usize
    requires { length out.now ≤ 128 }
    ensures upper_bound { result ≤ 2688 }
    ensures text_after { drop result text.new ≡ offsets_text out.now [] }
{
    let mut at = 2688;
    for offset in out.iter().rev() {
        at = put_offset(text, at, *offset);
    }
    at
}

fn print_some(text: &mut [u8; 2688], out: &[u32])
    requires { length out.now ≤ 128 }
{
    let at = put_offsets(text, out);
    io::write_all(1, &text[at..]);
}

// Prints offsets, 128 in one go.
fn print_offsets(out: &[u32]) {
    let mut text = [0u8; 2688];
    for part in out.chunks(128) {
        print_some(&mut text, part);
    }
}

fn print_ended(e: Ended, out: &[u32]) {
    let mut text = [0u8; 106];
    print_head(&mut text, e);
    let n = e.count.min(out.len());
    print_offsets(&out[..n]);
    io::write_all(1, b"\n");
}

// A walk's answer with the index that was left.
fn print_walk(a: Result<Ended, Refusal>, index: &[u8], capacity: usize, out: &[u32]) {
    match a {
        Ok(e) => {
            print_ended(e, out);
            listing::print_index(index, e.records.min(capacity));
        }
        Err(e) => listing::print_refusal(e),
    }
}

// The calls in order, each with the index, the count and out that the one before left. Answers the last count. The loop goes over call
// numbers and carries index, count and out from call to call.
fn print_calls(
    input: &[u8],
    index: &mut [u8; 1048560],
    first: usize,
    out: &mut [u32; 65535],
) -> usize
    ensures { Handed (heard_of input.now) (held index.old first out.old) (calls_of (heard_of input.now)) (held index.new result out.new) }
{
    let n = walk_inputs::count_calls(input);
    let capacity = walk_inputs::plan_of(input).capacity;
    let mut count = first;
    for i in 0..n {
        let a = walk_inputs::walk_call(input, i, index, count, out);
        print_walk(a, index, capacity, out);
        count = walk_inputs::next_count(a, count);
    }
    count
}

// The index that the run begins with, and the calls.
fn print_run(input: &[u8], index: &mut [u8; 1048560], count: usize, out: &mut [u32; 65535]) {
    let capacity = walk_inputs::plan_of(input).capacity;
    listing::print_index(index, count.min(capacity));
    print_calls(input, index, count, out);
}

fn print_opened(input: &[u8], index: &mut [u8; 1048560], out: &mut [u32; 65535]) {
    let begun = walk_inputs::open_index(input, index, out);
    if let Some(count) = print_first(begun) {
        print_run(input, index, count, out);
    }
}

// Prints what the program walks prints of an input.
pub fn print_walks(input: &[u8]) {
    let mut index = [0u8; 1048560];
    let mut out = [0u32; 65535];
    print_opened(input, &mut index, &mut out);
}
