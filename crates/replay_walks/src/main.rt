// Replays inputs of the program walks: prints for each its number and what walks prints of it.
// tools/replay_walks.py describes the list of inputs and makes it, with the expected output.
#![tactic(auto)]

// The buffer's length stands in its type, which is too long to be counted.
fn replay_all(buffer: &mut [u8; 1048592]) {
    listing::replay::replay(buffer, walk_listing::print_walks);
}

fn main() {
    let mut buffer = [0u8; 1048592];
    replay_all(&mut buffer);
}
