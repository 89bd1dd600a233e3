// Replays inputs of the program lines: prints for each its number and what lines prints of it.
// tools/replay_lines.py describes the list of inputs and makes it, with the expected output.
#![tactic(auto)]

fn main() {
    let mut buffer = [0u8; 65600];
    listing::replay::replay(&mut buffer, listing::print_listing);
}
