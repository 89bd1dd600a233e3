// Reads settings, starts, a plan, calls and code on standard input, and prints the index and the walks or the refusals. What is longer than
// 65,536 records counts as 3, so one byte more is enough to read.
#![tactic(auto)]

fn print_input(input: &mut [u8]) {
    let n = io::read_full(0, input);
    walk_listing::print_walks(&input[..n]);
}

// The same with the buffer's length in its type, which is too long to be counted.
fn print_read(input: &mut [u8; 1048577]) {
    print_input(input);
}

fn main() {
    let mut input = [0u8; 1048577];
    print_read(&mut input);
}
