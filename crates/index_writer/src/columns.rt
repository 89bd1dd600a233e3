// The columns of a line's clauses at one argument: offsets and tags, keys, open arguments, leaders and bucket sizes.
// Columns are parallel arrays of fixed size (no heap). A function reads some of them alone: keys heads and bits, rooms all but bits, offs and tags.
// An array of structs would hand each function fields that it does not read.
// A column that is being filled has its length in each contract: it is not yet what a struct says of it.
// A u32 becomes a usize by `as`, since there is no From for it. A place becomes a u32 by `as`: there are at most 1,024 clauses.
ghost use Rattle.std.specs.Prelude.{◌≡◌, true, ◌+◌, ◌*◌, ◌≤◌, ◌<◌, length, replicate};
ghost use Rattle.std.proofs.Math.Seq.{slice};
ghost use Rattle.records.specs.Records.{records_of};
ghost use Rattle.indexing_iter.specs.Keys.{bits_of};
ghost use Rattle.indexing_iter.specs.Rows.{head_of};
ghost use Rattle.indexing_iter.specs.Clauses.{known, offsets_of};
ghost use Rattle.indexing_iter.specs.Readings.{keys_by};
ghost use Rattle.indexing.specs.Columns.{words_of, leader_of, leaders_to, sizes_to, heads_to, bits_to, open_row, opens_to};
ghost use Rattle.index_writer.specs.Choices.{subs_of, NumbersBelow, open_numbers};
ghost use Rattle.index_writer.specs.Filling.{Filled};
ghost use Rattle.indexing.specs.Expanding.{ColumnsOf};
ghost use Rattle.indexing.specs.Chains.{Chained};
ghost use Rattle.index_writer.specs.Chains.{bucket_at, leads_in};

use crate::clauses::{Buckets, Clauses, Columns, Heads, LineRooms, NewLines, Opens, Tables};
use crate::keys::Keys;
use crate::line::Line;
use crate::switched::Switched;
use indexing::key_buckets::{self, Chains, Searched};
use indexing::tags::Tag;
use indexing_iter::program::Program;

// A key as two numbers: its sort and arity in one, and its bits.
#[derive(Clone, Copy)]
struct KeyNumbers {
    head: u32,
    bits: u64,
}

// The leader of each clause, each searched from the first clause on.
fn search_leaders(keys: &Keys, leaders: &mut [u32])
    requires { length leaders.old ≡ length keys.now.heads.now }
    ensures { leaders.new ≡ leaders_to keys.now.heads.now keys.now.bits.now (length keys.now.heads.now) }
{
    for (j, leader) in leaders.iter_mut().enumerate() {
        *leader = keys.leader_of(j);
    }
}

// The leader of clause j, searched among the leaders before it in its bucket, and from the first clause on where these do not decide it.
fn chained_leader(keys: &Keys, j: usize, bucket: usize, chains: &Chains<1021, 1024>) -> u32
    requires j_in_bounds { j < length keys.now.heads.now }
    requires bucket_value { (bucket ≡ bucket_at keys.now.heads.now keys.now.bits.now j) × (bucket < 1021) }
    requires chained { Chained (leads_in keys.now.heads.now keys.now.bits.now) chains.now.firsts chains.now.links j }
    ensures { result ≡ leader_of keys.now.heads.now keys.now.bits.now j }
{
    match chains.find(bucket, |i| keys.same_at(i, j)) {
        Searched::Found(i) => i as u32,
        Searched::Nowhere => j as u32,
        Searched::Open => keys.leader_of(j),
    }
}

// The leader of clause j, which joins its bucket if it leads itself.
fn next_leader(keys: &Keys, j: usize, chains: &mut Chains<1021, 1024>) -> u32
    requires j_in_bounds { j < length keys.now.heads.now }
    requires chained { Chained (leads_in keys.now.heads.now keys.now.bits.now) chains.old.firsts chains.old.links j }
    ensures value { result ≡ leader_of keys.now.heads.now keys.now.bits.now j }
    ensures chained_2 { Chained (leads_in keys.now.heads.now keys.now.bits.now) chains.new.firsts chains.new.links (j + 1) }
{
    let bucket = key_buckets::bucket_of(keys.heads[j], keys.bits[j], 1021);
    let leader = chained_leader(keys, j, bucket, chains);
    if leader as usize == j {
        chains.push(bucket, j);
    }
    leader
}

// The leader of each clause, searched among those in its bucket.
fn chain_leaders(keys: &Keys, leaders: &mut [u32])
    requires { length leaders.old ≡ length keys.now.heads.now }
    ensures { leaders.new ≡ leaders_to keys.now.heads.now keys.now.bits.now (length keys.now.heads.now) }
{
    let mut chains = Chains::new();
    for (j, leader) in leaders.iter_mut().enumerate() {
        *leader = next_leader(keys, j, &mut chains);
    }
}

// The leader of each clause: the place of the first clause with an equal key. Few clauses are searched from the first on, more by buckets.
pub fn find_leaders(keys: &Keys, leaders: &mut [u32])
    requires { length leaders.old ≡ length keys.now.heads.now }
    ensures { leaders.new ≡ leaders_to keys.now.heads.now keys.now.bits.now (length keys.now.heads.now) }
{
    if keys.heads.len() <= 32 {
        search_leaders(keys, leaders);
    } else {
        chain_leaders(keys, leaders);
    }
}

// The size of the bucket that each clause leads, 0 where it leads none.
pub fn count_sizes(leaders: &[u32], sizes: &mut [u32])
    requires sizes_len { (length sizes.old ≡ length leaders.now) × (length leaders.now ≤ 1024) }
    requires numbers_below { NumbersBelow (length leaders.now) leaders.now }
    ensures { sizes.new ≡ sizes_to leaders.now (length leaders.now) }
{
    sizes.fill(0);
    for leader in leaders {
        sizes[*leader as usize] += 1;
    }
}

// The leaders of the clauses, and the sizes of the buckets that they lead.
fn lead_columns(keys: &Keys, leaders: &mut [u32], sizes: &mut [u32])
    requires { (length leaders.old ≡ length keys.now.heads.now) × (length sizes.old ≡ length keys.now.heads.now) }
    ensures leaders_after { leaders.new ≡ leaders_to keys.now.heads.now keys.now.bits.now (length keys.now.heads.now) }
    ensures sizes_after { sizes.new ≡ sizes_to leaders.new (length leaders.new) }
{
    find_leaders(keys, leaders);
    count_sizes(leaders, sizes);
}

// The open arguments of a clause, by the heads of its keys.
// heads is read by place: arity, heads and opens have three lengths. arity ≤ 32 is asked as a row has 32 places.
fn put_open_row(opens: &mut [u8], heads: &[u32], arity: u32)
    requires { (length opens.old ≡ 32) × (arity ≤ length heads.now) × (arity ≤ 32) }
    ensures { opens.new ≡ open_numbers heads.now arity }
{
    let n = arity as usize;
    for (b, open) in opens.iter_mut().enumerate() {
        *open = u8::from(b < n && heads[b] == 0);
    }
}

// The key at argument a of the clause at a known offset of checked code; where the clause is open goes to opens.
fn read_row(program: &Program, offset: u32, a: u32, opens: &mut [u8]) -> KeyNumbers
    requires offset_value { known program.now.starts.now offset ≡ true }
    requires le_a { (1 ≤ a) × (a ≤ program.now.settings.arity) × (length opens.old ≡ 32) }
    ensures head_value { result.head ≡ head_of (keys_by program.now offset a) }
    ensures bits_value { result.bits ≡ bits_of (keys_by program.now offset a) }
    ensures opens_after { opens.new ≡ open_row (keys_by program.now) program.now.settings.arity offset }
{
    let mut heads = [0u32; 32];
    let mut bits = [0u64; 32];
    indexing_iter::collect_opt_arg_index_keys(program, offset, &mut heads, &mut bits);
    put_open_row(opens, &heads, program.settings.arity);
    let at = a as usize - 1;
    KeyNumbers {
        head: heads[at],
        bits: bits[at],
    }
}

// The keys of a line's clauses at its argument, and where each clause is open, in one pass over the clauses' records.
// opens is flat, 32 numbers a clause, here and in fill_columns: both are public, and a slice of rows of 32 would ask another type of their callers.
pub fn read_keys(line: &Line, heads: &mut [u32], bits: &mut [u64], opens: &mut [u8])
    requires { (length heads.old ≡ length line.now.offs.now) × (length bits.old ≡ length line.now.offs.now) × (length opens.old ≡ 32 * length line.now.offs.now) }
    ensures heads_after { heads.new ≡ heads_to (keys_by line.now.program) line.now.offs.now line.now.arg (length line.now.offs.now) }
    ensures bits_after { bits.new ≡ bits_to (keys_by line.now.program) line.now.offs.now line.now.arg (length line.now.offs.now) }
    ensures opens_after { opens.new ≡ opens_to (keys_by line.now.program) line.now.program.settings.arity line.now.offs.now (length line.now.offs.now) }
{
    // Heads and bits by place: a zip with an iter_mut was tried (read_choices), and a proof learns nothing of what it writes.
    for (i, offset) in line.offs.iter().enumerate() {
        let o = 32 * i;
        let e = o + 32;
        let k = read_row(&line.program, *offset, line.arg, &mut opens[o..e]);
        heads[i] = k.head;
        bits[i] = k.bits;
    }
}

// All columns of a line's clauses at its argument; whole is the leaders column in which they are one bucket, led by clause 0.
// ColumnArrays::fill_fronts calls it with the front of each of its arrays, lent to be written: so the columns stay parameters.
pub fn fill_columns(
    line: &Line,
    leaders: &mut [u32],
    heads: &mut [u32],
    sizes: &mut [u32],
    whole: &mut [u32],
    bits: &mut [u64],
    opens: &mut [u8],
)
    requires leaders_len { (length leaders.old ≡ length line.now.offs.now) × (length heads.old ≡ length line.now.offs.now) × (length sizes.old ≡ length line.now.offs.now) }
    requires whole_len { (length whole.old ≡ length line.now.offs.now) × (length bits.old ≡ length line.now.offs.now) × (length opens.old ≡ 32 * length line.now.offs.now) }
    ensures { ColumnsOf (keys_by line.now.program) line.now.program.settings.arity line.now.offs.now line.now.arg leaders.new heads.new sizes.new whole.new bits.new opens.new }
{
    read_keys(line, heads, bits, opens);
    lead_columns(&Keys { heads, bits }, leaders, sizes);
    whole.fill(0);
}

// Arrays for the columns of as many clauses as a predicate may have.
#[derive(Drop)]
pub struct ColumnArrays {
    leaders: [u32; 1024],
    heads: [u32; 1024],
    sizes: [u32; 1024],
    whole: [u32; 1024],
    bits: [u64; 1024],
    opens: [u8; 32768],
}

// The fronts of these arrays, filled: as many numbers as there are clauses.
#[derive(Clone, Copy)]
struct Fronts<'a> {
    leaders: &'a [u32],
    heads: &'a [u32],
    sizes: &'a [u32],
    whole: &'a [u32],
    bits: &'a [u64],
    opens: &'a [u8],
}

impl ColumnArrays {
    // All places are 0.
    pub fn new() -> Self
        ensures keys { (result.heads ≡ replicate 1024 0) × (result.bits ≡ replicate 1024 0) × (result.opens ≡ replicate 32768 0) }
        ensures leaders { (result.leaders ≡ replicate 1024 0) × (result.sizes ≡ replicate 1024 0) × (result.whole ≡ replicate 1024 0) }
    {
        ColumnArrays {
            leaders: [0; 1024],
            heads: [0; 1024],
            sizes: [0; 1024],
            whole: [0; 1024],
            bits: [0; 1024],
            opens: [0; 32768],
        }
    }

    fn fill_fronts(&mut self, line: &Line) -> Fronts<'_>
        ensures leaders_len { (length result.leaders.now ≡ length line.now.offs.now) × (length result.heads.now ≡ length line.now.offs.now) × (length result.whole.now ≡ length line.now.offs.now) }
        ensures bits_len { (length result.bits.now ≡ length line.now.offs.now) × (length result.opens.now ≡ 32 * length line.now.offs.now) }
        ensures filled { ColumnsOf (keys_by line.now.program) line.now.program.settings.arity line.now.offs.now line.now.arg result.leaders.now result.heads.now result.sizes.now result.whole.now result.bits.now result.opens.now }
    {
        let n = line.offs.len();
        let ColumnArrays {
            leaders,
            heads,
            sizes,
            whole,
            bits,
            opens,
        } = self;
        let leaders = &mut leaders[..n];
        let heads = &mut heads[..n];
        let sizes = &mut sizes[..n];
        let whole = &mut whole[..n];
        let bits = &mut bits[..n];
        let opens = &mut opens[..32 * n];
        fill_columns(line, leaders, heads, sizes, whole, bits, opens);
        Fronts {
            leaders,
            heads,
            sizes,
            whole,
            bits,
            opens,
        }
    }

    // A line's clauses with these tags, first as one bucket, led by clause 0, and then with their keys at its argument in the buckets of these.
    pub fn fill<'a>(&'a mut self, line: &Line<'_, 'a>, tags: &'a [u8]) -> (Clauses<'a>, Columns<'a>)
        requires { length tags.now ≡ length line.now.offs.now }
        ensures { Filled line.now.program line.now.offs.now tags.now line.now.arg result.0 result.1 }
    {
        let fronts = self.fill_fronts(line);
        let settings = line.program.settings;
        let arg = line.arg;
        let offs = line.offs;
        let heads = Heads {
            leaders: fronts.leaders,
            heads: fronts.heads,
            dynamic: settings.dynamic,
        };
        let sizes = fronts.sizes;
        let bits = fronts.bits;
        let rooms = LineRooms {
            buckets: Buckets { heads, sizes },
            opens: fronts.opens,
            switched: Switched { settings, arg },
        };
        let lines = NewLines { rooms, offs, tags };
        let opens = Opens {
            leaders: fronts.whole,
            opens: fronts.opens,
        };
        let tables = Tables { opens, offs };
        (Clauses { tables, tags }, Columns { lines, bits })
    }
}

// The offsets and tags of the offset records from place q on, as many as there are places for.
pub fn read_choices(index: &[u8], q: usize, offs: &mut [u32], tags: &mut [u8])
    requires { (q + length offs.old ≤ length (records_of index.now)) × (length tags.old ≡ length offs.old) }
    ensures offs_after { offs.new ≡ words_of (slice q (q + length offs.old) (records_of index.now)) }
    ensures tags_after { tags.new ≡ subs_of (slice q (q + length offs.old) (records_of index.now)) }
{
    // By place: a zip with an iter_mut was tried, and a proof learns nothing of what it writes.
    for i in 0..offs.len() {
        let r = records::get(index, q + i);
        offs[i] = r.word;
        tags[i] = r.sub;
    }
}

// The offsets of a new index's first line: the clauses' own.
pub fn start_offsets(starts: &[u32], offs: &mut [u32])
    requires offs_len { length offs.old ≡ length starts.now }
    requires numbers_below { NumbersBelow 32768 starts.now }
    ensures { offs.new ≡ offsets_of starts.now }
{
    // A start is read by place: a zip of starts with an iter_mut was tried, and a proof learns nothing of what it writes.
    for (i, offset) in offs.iter_mut().enumerate() {
        *offset = starts[i] + 1;
    }
}

// The offsets and tags of a new index's first line: each clause has tag Z.
pub fn start_choices(starts: &[u32], offs: &mut [u32], tags: &mut [u8])
    requires offs_len { (length offs.old ≡ length starts.now) × (length tags.old ≡ length starts.now) }
    requires numbers_below { NumbersBelow 32768 starts.now }
    ensures offs_after { offs.new ≡ offsets_of starts.now }
    ensures tags_after { tags.new ≡ replicate (length starts.now) 7 }
{
    start_offsets(starts, offs);
    tags.fill(u8::from(Tag::Z));
}
