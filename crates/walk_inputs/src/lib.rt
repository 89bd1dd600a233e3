// The input of the program walks: settings, starts, a plan of the run, calls, the records of an index that is handed in, then code.
// Numbers of records are made usize by `as`: From makes none of a u32 or a u64. An index stands with its record count and out beside it, as a walk
// takes them. build_index, open_cut and walk_cut ask that starts has the plan's length: input and starts are two buffers, and no type joins them.
#![tactic(auto)]

mod input;

ghost use Rattle.std.specs.Prelude.{◌≡◌, ◌+◌, ◌-◌, ◌*◌, ◌≤◌, ◌<◌, ◌++◌, length, replicate};
ghost use Rattle.records.specs.Records.{records_of};
ghost use Rattle.indexing_builder.specs.Answer.{built_of};
ghost use Rattle.indexing_walk.specs.Answers.{walked_of};
ghost use Rattle.inputs.specs.Parts.{part_kind};
ghost use Rattle.walk_inputs.specs.Plan.{heard_of, record_of, given_of, place_of, planned_by, plan_of, step_of, part_of};
ghost use Rattle.walk_inputs.specs.Cut.{CutCallable, CutRan};
ghost use Rattle.walk_inputs.specs.Run.{start_index, code_of, calls_of, call_part, build_of, open_of, opened_of, opened_in, open_call, walk_of, walk_in, next_count};

use indexing_builder::Built;
use indexing_iter::refusal::Refusal;
use indexing_walk::Ended;
use input::Input;
use inputs::part::Part;
use records::Rec;

// What an input says of its run: how many starts there are, the numbers in out, the records that the index has room for, the record count of the
// index that is handed in, none where none is, the place of the first call record, how many call records there are, and how many index records.
#[derive(Clone, Copy, Debug, PartialEq, Eq)]
pub struct Plan {
    pub starts: usize,
    pub out: u16,
    pub capacity: usize,
    pub handed: Option<usize>,
    pub place: usize,
    pub calls: usize,
    pub index: usize,
}

// How a run begins that is not refused: an index is built, or one of so many records is given. No Option or Result: both ways begin a run.
#[derive(Clone, Copy, Debug, PartialEq, Eq)]
pub enum Begun {
    Built(Built),
    Given(usize),
}

// What is read of an input: up to 65,536 records. Longer input counts as 3: its first record and one byte of code are read.
#[tactic(auto, unfolding(crate::specs::Plan::heard_of))]
fn heard(input: &[u8]) -> &[u8]
    ensures { (result.now ≡ heard_of input.now) × (length result.now ≤ 1048576) }
{
    if 1048576 < input.len() {
        return &input[..17];
    }
    input
}

// The record at a place where it is that part; else, and past the end, a record of zeros. A missing record is no None, as a 242 of zeros stands for it
// (docs/DECISIONS.md): each field of the plan is read as 0 then.
fn record_of(input: &[u8], part: Part, at: usize) -> Rec
    ensures { result ≡ record_of (part_kind part) (records_of input.now) at }
{
    let n = records::capacity(input);
    let r = records::record_in(input, n, at);
    if r.kind == u8::from(part) {
        return r;
    }
    Rec::default()
}

// The record 243 at a place, where an index is handed in.
fn given_of(input: &[u8], handed: bool, at: usize) -> Rec
    ensures { result ≡ given_of handed (records_of input.now) at }
{
    if handed {
        return record_of(input, Part::Given, at);
    }
    Rec::default()
}

// How many places a record takes that may be missing: kind 0 is no part's, and tells that it is.
fn place_of(r: Rec) -> usize
    ensures { result ≡ place_of r }
{
    usize::from(r.kind != 0)
}

// The plan that records 242 and 243 give for n records with k starts.
fn planned(n: usize, k: usize, r: Rec, g: Rec) -> Plan
    requires { (n ≤ 65536) × (k ≤ n) }
    ensures { result ≡ planned_by n k r g }
{
    let place = 1 + k + place_of(r) + place_of(g);
    let calls = (r.word as usize).min(n.saturating_sub(place));
    let index = (g.word as usize).min(n.saturating_sub(place + calls));
    Plan {
        starts: k,
        out: r.half,
        capacity: (r.long as usize).min(65535),
        handed: inputs::bit(r.sub, 1).then_some(g.long as usize),
        place,
        calls,
        index,
    }
}

// The plan of an input that is not too long.
fn plan_in(input: &[u8]) -> Plan
    requires { length input.now ≤ 1048576 }
    ensures value { result ≡ plan_of input.now }
    ensures places { result.place + result.calls + result.index ≤ 65539 }
    ensures calls { (result.calls ≤ 65536) × (result.index ≤ 65536) }
    ensures room { (result.starts ≤ 65536) × (result.capacity ≤ 65535) }
{
    let n = records::capacity(input);
    let k = inputs::count_starts(input);
    let r = record_of(input, Part::Plan, 1 + k);
    let handed = inputs::bit(r.sub, 1);
    let g = given_of(input, handed, 1 + k + place_of(r));
    planned(n, k, r, g)
}

// How many records a call has: the arity, and at least one.
fn step_of(input: &[u8]) -> usize
    ensures { (result ≡ step_of input.now) × (1 ≤ result) × (result < 4294967296) }
{
    let settings = inputs::settings_in(inputs::first_record(input));
    (settings.arity as usize).max(1)
}

// What is read of an input.
fn read(input: &[u8]) -> Input<'_>
    ensures { result.bytes.now ≡ heard_of input.now }
{
    let bytes = heard(input);
    Input {
        bytes,
        plan: plan_in(bytes),
        step: step_of(bytes),
    }
}

// The plan of an input.
pub fn plan_of(input: &[u8]) -> Plan
    ensures { result ≡ plan_of (heard_of input.now) }
{
    read(input).plan
}

// How many calls an input has; the last one may be short.
pub fn count_calls(input: &[u8]) -> usize
    ensures { result ≡ calls_of (heard_of input.now) }
{
    let run = read(input);
    run.plan.calls.div_ceil(run.step)
}

// The bytes of n records from a place on, or as many as there are.
fn part_of(input: &[u8], at: usize, n: usize) -> &[u8]
    requires { (at < 1152921504606846976) × (n ≤ 65536) }
    ensures { result.now ≡ part_of input.now at n }
{
    let len = input.len();
    let a = (16 * at).min(len);
    let e = (a + 16 * n).min(len);
    &input[a..e]
}

// The bytes of call number i.
fn call_part<'a>(input: &Input<'a>, i: usize) -> &'a [u8]
    ensures { result.now ≡ call_part input.now.bytes.now i }
{
    if input.plan.calls <= i {
        return part_of(input.bytes, 0, 0);
    }
    let from = i * input.step;
    let left = input.plan.calls.saturating_sub(from);
    part_of(input.bytes, input.plan.place + from, input.step.min(left))
}

// The code, to the input's end.
fn code<'a>(input: &Input<'a>) -> &'a [u8]
    ensures { result.now ≡ code_of input.now.bytes.now }
{
    let plan = input.plan;
    let at = (16 * (plan.place + plan.calls + plan.index)).min(input.bytes.len());
    &input.bytes[at..]
}

// Puts the bytes of run at the front of an index, and zeros behind them.
fn fill_index(run: &[u8], index: &mut [u8])
    requires { length run.now ≤ length index.old }
    ensures { index.new ≡ run.now ++ replicate (length index.old - length run.now) 0 }
{
    let n = run.len();
    index[..n].copy_from_slice(run);
    index[n..].fill(0);
}

// The index as a run begins: the records that are handed in, as many as fit, and zeros.
fn start_index(input: &Input, index: &mut [u8])
    requires { length index.old ≡ 16 * input.now.plan.capacity }
    ensures { index.new ≡ start_index input.now.bytes.now }
{
    let plan = input.plan;
    let run = part_of(
        input.bytes,
        plan.place + plan.calls,
        plan.index.min(plan.capacity),
    );
    fill_index(run, index);
}

// The builder called on the parts of an input, with the index as the run begins.
fn build_index(input: &Input, starts: &mut [u32], index: &mut [u8]) -> Result<Built, Refusal>
    requires { length starts.old ≡ input.now.plan.starts }
    ensures { built_of result index.new ≡ build_of input.now.bytes.now index.old }
{
    let first = inputs::first_record(input.bytes);
    let settings = inputs::settings_in(first);
    inputs::read_starts(input.bytes, starts);
    indexing_builder::compute_indices(code(input), starts, settings, first.long, index)
}

// The first index and out, with buffers and starts of the plan's lengths.
fn open_cut(
    input: &Input,
    index: &mut [u8],
    out: &mut [u32],
    starts: &mut [u32],
) -> Result<Begun, Refusal>
    requires index_len { length index.old ≡ 16 * input.now.plan.capacity }
    requires out_len { (length out.old ≡ input.now.plan.out) × (length starts.old ≡ input.now.plan.starts) }
    ensures { opened_of result index.new out.new ≡ open_of input.now.bytes.now }
{
    start_index(input, index);
    out.fill(0);
    match input.plan.handed {
        Some(count) => Ok(Begun::Given(count)),
        None => Ok(Begun::Built(build_index(input, starts, index)?)),
    }
}

// What run does with the parts of an index buffer, of out and of starts that have the lengths of a plan.
fn run_cut<T, F: FnOnce(&mut [u8], &mut [u32], &mut [u32]) -> T>(
    plan: Plan,
    index: &mut [u8; 1048560],
    out: &mut [u32; 65535],
    run: F,
) -> T
    requires plan_bounds { (plan.capacity ≤ 65535) × (plan.starts ≤ 65536) }
    requires calls { CutCallable F.FnOnce plan run }
    ensures { CutRan F.FnOnce plan run index.old out.old result index.new out.new }
{
    let mut starts = [0u32; 65536];
    let n = 16 * plan.capacity;
    let m = usize::from(plan.out);
    run(&mut index[..n], &mut out[..m], &mut starts[..plan.starts])
}

// How a run begins: the index and out before the first call stand at the front of the two buffers, whose rest is untouched.
pub fn open_index(
    input: &[u8],
    index: &mut [u8; 1048560],
    out: &mut [u32; 65535],
) -> Result<Begun, Refusal>
    ensures { opened_of result index.new out.new ≡ open_call input.now index.old out.old }
{
    let input = read(input);
    let open = |index: &mut [u8], out: &mut [u32], starts: &mut [u32]| -> Result<Begun, Refusal>
        requires { (length index.old ≡ 16 * input.plan.capacity) × ((length out.old ≡ input.plan.out) × (length starts.old ≡ input.plan.starts)) }
        ensures { opened_of result index.new out.new ≡ open_of input.entry.bytes.now }
    { open_cut(&input, index, out, starts) };
    run_cut(input.plan, index, out, open)
}

// Call number i, with buffers and starts of the plan's lengths.
fn walk_cut(
    input: &Input,
    i: usize,
    index: &mut [u8],
    count: usize,
    out: &mut [u32],
    starts: &mut [u32],
) -> Result<Ended, Refusal>
    requires { length starts.old ≡ input.now.plan.starts }
    ensures { walked_of result index.new out.new ≡ walk_of input.now.bytes.now i index.old count out.old }
{
    let settings = inputs::settings_in(inputs::first_record(input.bytes));
    inputs::read_starts(input.bytes, starts);
    indexing_walk::switch_on_term(
        code(input),
        starts,
        settings,
        call_part(input, i),
        index,
        count,
        out,
    )
}

// The walk of call number i through the index at the front of its buffer, with out at the front of its own; their rest is untouched.
pub fn walk_call(
    input: &[u8],
    i: usize,
    index: &mut [u8; 1048560],
    count: usize,
    out: &mut [u32; 65535],
) -> Result<Ended, Refusal>
    ensures { walked_of result index.new out.new ≡ walk_in (heard_of input.now) i index.old count out.old }
{
    let input = read(input);
    let walk = |index: &mut [u8], out: &mut [u32], starts: &mut [u32]| -> Result<Ended, Refusal>
        requires { length starts.old ≡ input.plan.starts }
        ensures { walked_of result index.new out.new ≡ walk_of input.entry.bytes.now i index.old count out.old }
    { walk_cut(&input, i, index, count, out, starts) };
    run_cut(input.plan, index, out, walk)
}

// The record count that is handed to the next call: an accepted walk's new one; after a refusal the earlier one still holds.
pub fn next_count(a: Result<Ended, Refusal>, count: usize) -> usize
    ensures { result ≡ next_count a count }
{
    a.map_or(count, |e| e.records)
}
