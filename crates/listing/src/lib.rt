// The listing of an index, as text: one line for each record, its five numbers in decimal with a blank between them.
// A text is filled from its end, so the place where it begins stands beside it: it is a result that is handed on.
// A number is made a digit by `as`: From makes no u8 of a u64.
// put_lines, print_lines and print_part fill and print a text by a rule of their own, as put_offsets and print_some of walk_listing do by theirs: one
// function over a closure would promise less of the text.
// At most 128 records are asked of the three, which call one another: a text has room for so many lines.
#![tactic(auto)]

pub mod replay;

ghost use Rattle.std.specs.Prelude.{◌≡◌, ◌+◌, ◌≤◌, ◌<◌, [], ◌∷◌, length, drop};
ghost use Rattle.records.specs.Records.{records_of};
ghost use Rattle.listing.specs.Text.{decimal, line_of, lines_of};

use indexing_builder::Built;
use indexing_iter::refusal::Refusal;
use records::Rec;

// Puts a number in decimal before a place, from its last digit back, and answers where it begins. No u64 has more than
// twenty digits. By hand: the digits are proved equal to a definition; std prints to a stream, of which nothing is proved.
pub fn put_number(text: &mut [u8], end: usize, n: u64) -> usize
    requires { (20 ≤ end) × (end ≤ length text.old) }
    ensures end_bound { (end ≤ result + 20) × (result ≤ end) }
    ensures text_after { drop result text.new ≡ decimal n (drop end text.old) }
{
    let least = end - 20;
    let mut rest = n;
    for i in (least..end).rev() {
        text[i] = 48 + (rest % 10) as u8;
        rest /= 10;
        if rest == 0 {
            return i;
        }
    }
    least
}

// Puts a number and the byte after it before a place.
pub fn put_field(text: &mut [u8], end: usize, n: u64, after: u8) -> usize
    requires { (21 ≤ end) × (end ≤ length text.old) }
    ensures end_bound { (end ≤ result + 21) × (result ≤ end) }
    ensures text_after { drop result text.new ≡ decimal n (after ∷ drop end text.old) }
{
    let last = end - 1;
    text[last] = after;
    put_number(text, last, n)
}

// Puts the line of a record before a place, and answers where it begins.
fn put_line(text: &mut [u8], end: usize, r: Rec) -> usize
    requires { (105 ≤ end) × (end ≤ length text.old) }
    ensures end_bound { (end ≤ result + 105) × (result ≤ end) }
    ensures text_after { drop result text.new ≡ line_of r (drop end text.old) }
{
    let long_at = put_field(text, end, r.long, b'\n');
    let word_at = put_field(text, long_at, u64::from(r.word), b' ');
    let half_at = put_field(text, word_at, u64::from(r.half), b' ');
    let sub_at = put_field(text, half_at, u64::from(r.sub), b' ');
    put_field(text, sub_at, u64::from(r.kind), b' ')
}

// Puts the lines of at most 128 records at the end of text, the last line first, and answers where they begin. Records are sixteen bytes of a byte
// buffer, so the loop goes over their places.
fn put_lines(text: &mut [u8; 13440], part: &[u8]) -> usize
    requires { length (records_of part.now) ≤ 128 }
    ensures upper_bound { result ≤ 13440 }
    ensures text_after { drop result text.new ≡ lines_of (records_of part.now) [] }
{
    let mut at = 13440;
    for i in (0..records::capacity(part)).rev() {
        at = put_line(text, at, records::get(part, i));
    }
    at
}

// The lines are bytes that are proved equal to a definition, so they are written as they are.
fn print_lines(text: &mut [u8; 13440], part: &[u8])
    requires { length (records_of part.now) ≤ 128 }
{
    let at = put_lines(text, part);
    io::write_all(1, &text[at..]);
}

// Prints at most 128 records in one go.
fn print_part(part: &[u8])
    requires { length (records_of part.now) ≤ 128 }
{
    let mut text = [0u8; 13440];
    print_lines(&mut text, part);
}

// Prints records. The loop goes over places: there is no slice of records.
fn print_records(index: &[u8]) {
    let n = records::capacity(index);
    for from in (0..n).step_by(128) {
        let part = records::part(index, from, from + (n - from).min(128));
        print_part(part);
    }
}

// Prints the first n records of an index, or all.
pub fn print_index(index: &[u8], n: usize) {
    let count = n.min(records::capacity(index));
    print_records(records::part(index, 0, count));
}

// Prints a line that ends in a number.
pub fn print_numbered(text: &[u8], n: u64) {
    io::write_all(1, text);
    io::print_decimal(1, n);
    io::write_all(1, b"\n");
}

// Prints the line of a refusal.
pub fn print_refusal(e: Refusal) {
    print_numbered(b"refused ", u64::from(u32::from(e)));
}

// Prints an answer, with the index that was left.
fn print_answer(a: Result<Built, Refusal>, index: &[u8]) {
    match a {
        Ok(built) => print_index(index, built.count),
        Err(e) => print_refusal(e),
    }
}

// Prints what the program lines prints of an input: the index has room for 4,096 records.
pub fn print_listing(input: &[u8]) {
    let mut index = [0u8; 65536];
    let a = inputs::list_index(input, &mut index);
    print_answer(a, &index);
}
