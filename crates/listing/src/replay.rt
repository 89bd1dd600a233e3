// The inputs that a program replays, one after the other on standard input: for each a record 246, whose word is the number of its bytes,
// then the bytes, filled up with zeros to whole records. The word is made usize by `as`: From makes none.
ghost use Rattle.std.specs.Prelude.{◌≤◌, length};
ghost use Rattle.listing.specs.Replay.{Within};

use inputs::part::Part;
use records::Rec;

fn read_head(head: &mut [u8]) -> Rec {
    let n = io::read_full(0, head);
    inputs::first_record(&head[..n])
}

// Reads as many bytes as a part has, and answers whether they were there.
fn read_part(part: &mut [u8]) -> bool {
    let n = part.len();
    io::read_full(0, part) == n
}

// Reads the next input and prints its number. Answers how many bytes it has, which stand at the front of the buffer; none where no whole input
// that fits comes next.
pub fn next_input(buffer: &mut [u8], number: u64) -> Option<usize>
    ensures { Within result (length buffer.old) }
{
    let mut head = [0u8; 16];
    let first = read_head(&mut head);
    let len = first.word as usize;
    let whole = len.div_ceil(16) * 16;
    if first.kind != u8::from(Part::Input) {
        return None;
    }
    if buffer.len() < whole {
        return None;
    }
    if !read_part(&mut buffer[..whole]) {
        return None;
    }
    crate::print_numbered(b"input ", number);
    Some(len)
}

// Replays the inputs of the list, a million at most: print is called with each.
pub fn replay<F: FnMut(&[u8])>(buffer: &mut [u8], mut print: F)
    requires { F.IsAlwaysCallable print }
{
    for number in 0..1000000 {
        let Some(len) = next_input(buffer, number) else {
            return;
        };
        print(&buffer[..len]);
    }
}
