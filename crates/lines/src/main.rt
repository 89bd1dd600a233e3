// Reads settings, starts and code on standard input, and prints the index or the refusal. What is longer than 4,096
// records is refused, so one byte more is enough to read.
#![tactic(auto)]

fn main() {
    let mut input = [0u8; 65537];
    let n = io::read_full(0, &mut input);
    listing::print_listing(&input[..n]);
}
