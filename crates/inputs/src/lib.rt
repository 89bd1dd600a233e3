// The input of the programs: a settings record, a record for each start, then code.
#![tactic(auto)]

pub mod part;

ghost use Rattle.std.specs.Prelude.{◌≡◌, ◌≤◌, ◌<◌, length, get_or, drop, eqb};
ghost use Rattle.records.specs.Records.{records_of, zero_rec};
ghost use Rattle.indexing_builder.specs.Answer.{built_of};
ghost use Rattle.inputs.specs.Input.{bit as bit_of, settings_from, starts_in, lines_call};

use indexing_builder::Built;
use indexing_iter::refusal::Refusal;
use indexing_iter::{Settings, flags};
use part::Part;
use records::Rec;

// The bit of sub whose value is k.
pub fn bit(sub: u8, k: u8) -> bool
    requires { 0 < k }
    ensures { result ≡ bit_of sub k }
{
    flags::flag(u32::from(sub), u32::from(k))
}

// The settings in the first record of an input; any other kind counts as arity 0.
#[tactic(auto, unfolding(indexing_iter::specs::Flags::settings_by_flags))]
pub fn settings_in(r: Rec) -> Settings
    ensures { result ≡ settings_from (eqb r.kind 240) r }
{
    if r.kind == u8::from(Part::Settings) {
        return Settings::from_flags(u32::from(r.half), r.word, u32::from(r.sub));
    }
    Settings::from_flags(0, 0, 0)
}

// The first record of an input, all zero where there is none.
pub fn first_record(input: &[u8]) -> Rec
    ensures { result ≡ get_or (records_of input.now) 0 zero_rec }
{
    let n = records::capacity(input);
    records::record_in(input, n, 0)
}

// How many starts follow the first record. A loop: tried as `(1..n).take_while(..).count()`, and the proof did not close.
pub fn count_starts(input: &[u8]) -> usize
    ensures { result ≡ length (starts_in (drop 1 (records_of input.now))) }
{
    let n = records::capacity(input);
    for i in 1..n {
        if records::get(input, i).kind != u8::from(Part::Start) {
            return i - 1;
        }
    }
    n.saturating_sub(1)
}

// Reads the starts that follow the first record.
pub fn read_starts(input: &[u8], starts: &mut [u32])
    requires { length starts.old ≡ length (starts_in (drop 1 (records_of input.now))) }
    ensures { starts.new ≡ starts_in (drop 1 (records_of input.now)) }
{
    records::read_words(input, 1, starts);
}

// The index of an input that is not too long; starts has the length of its starts.
fn list_starts(input: &[u8], starts: &mut [u32], index: &mut [u8]) -> Result<Built, Refusal>
    requires input_len_bound { length input.now ≤ 65536 }
    requires starts_len { length starts.old ≡ length (starts_in (drop 1 (records_of input.now))) }
    ensures { built_of result index.new ≡ lines_call input.now index.old }
{
    let first = first_record(input);
    let settings = settings_in(first);
    let n = starts.len();
    let at = input.len().min(16 * (1 + n));
    read_starts(input, starts);
    indexing_builder::compute_indices(&input[at..], starts, settings, first.long, index)
}

// Longer input: no starts, and its first byte as code.
fn list_longer(input: &[u8], index: &mut [u8]) -> Result<Built, Refusal>
    requires { 65536 < length input.now }
    ensures { built_of result index.new ≡ lines_call input.now index.old }
{
    let first = first_record(input);
    let settings = settings_in(first);
    let space = [0u32];
    indexing_builder::compute_indices(&input[..1], &space[..0], settings, first.long, index)
}

// The index of an input; space has room for the starts of any that is not too long.
fn list_with(input: &[u8], space: &mut [u32; 4096], index: &mut [u8]) -> Result<Built, Refusal>
    ensures { built_of result index.new ≡ lines_call input.now index.old }
{
    if 65536 < input.len() {
        return list_longer(input, index);
    }
    let k = count_starts(input);
    list_starts(input, &mut space[..k], index)
}

// The outcome of the program lines: the answer for an input, and the index written.
pub fn list_index(input: &[u8], index: &mut [u8]) -> Result<Built, Refusal>
    ensures { built_of result index.new ≡ lines_call input.now index.old }
{
    let mut space = [0u32; 4096];
    list_with(input, &mut space, index)
}
