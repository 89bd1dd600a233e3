// Records of sixteen bytes in a lent byte buffer, the index or the code. Nothing above this crate sees a byte: readers
// and writers are stated over `records_of`.
// record_in, move_up, open_gap, part are public; an index stands in front in a lent buffer with room for growth (fixed memory), so its number goes beside.
#![tactic(auto)]

ghost use Rattle.std.specs.Prelude.{◌≡◌, ◌+◌, ◌-◌, ◌≤◌, ◌<◌, length, take, set, get_or, map};
ghost use Rattle.std.proofs.Math.Seq.{slice};
ghost use Rattle.records.specs.Records.{decode, encode_rec, records_of, zero_rec, Wrote};
ghost use Rattle.records.specs.Moves.{written, moved, gapped};

pub mod pointer;

// A record by value. What each field means is said by whoever reads it.
#[derive(Clone, Copy, Debug, PartialEq, Eq, Default)]
pub struct Rec {
    pub kind: u8,
    pub sub: u8,
    pub half: u16,
    pub word: u32,
    pub long: u64,
}

// The record in the first sixteen bytes of a part.
fn load(s: &[u8]) -> Rec
    requires { 16 ≤ length s.now }
    ensures { result ≡ decode s.now }
{
    Rec {
        kind: s[0],
        sub: s[1],
        half: u16::from_le_bytes([s[2], s[3]]),
        word: u32::from_le_bytes([s[4], s[5], s[6], s[7]]),
        long: u64::from_le_bytes([s[8], s[9], s[10], s[11], s[12], s[13], s[14], s[15]]),
    }
}

// Writes a record into a part of sixteen bytes, each number with its lowest byte first.
fn store(s: &mut [u8], r: Rec)
    requires { length s.old ≡ 16 }
    ensures { s.new ≡ encode_rec r }
{
    s[0] = r.kind;
    s[1] = r.sub;
    s[2..4].copy_from_slice(&r.half.to_le_bytes());
    s[4..8].copy_from_slice(&r.word.to_le_bytes());
    s[8..16].copy_from_slice(&r.long.to_le_bytes());
}

// How many whole records a buffer has.
pub fn capacity(index: &[u8]) -> usize
    ensures { result ≡ length (records_of index.now) }
{
    index.len() / 16
}

// The record at a place of the buffer.
pub fn get(index: &[u8], at: usize) -> Rec
    requires { at < length (records_of index.now) }
    ensures { result ≡ get_or (records_of index.now) at zero_rec }
{
    let start = 16 * at;
    let end = start + 16;
    load(&index[start..end])
}

// The records from a place up to another, as a buffer of their own.
pub fn part(index: &[u8], from: usize, to: usize) -> &[u8]
    requires { (from ≤ to) × (to ≤ length (records_of index.now)) }
    ensures { records_of result.now ≡ slice from to (records_of index.now) }
{
    &index[16 * from..16 * to]
}

// The record at place p of the first n records, or one of zeros behind them.
pub fn record_in(index: &[u8], n: usize, p: usize) -> Rec
    requires { n ≤ length (records_of index.now) }
    ensures { result ≡ get_or (take n (records_of index.now)) p zero_rec }
{
    if p < n {
        return get(index, p);
    }
    Rec::default()
}

// Reads the words of the records from a place on, as many as words has places.
pub fn read_words(index: &[u8], from: usize, words: &mut [u32])
    requires { length words.old ≤ length (records_of index.now) - from }
    ensures { words.new ≡ map (λ r. r.word) (slice from (from + length words.old) (records_of index.now)) }
{
    for (i, word) in words.iter_mut().enumerate() {
        *word = get(index, from + i).word;
    }
}

// Writes a record at a place of the buffer.
pub fn put(index: &mut [u8], at: usize, r: Rec)
    requires { at < length (records_of index.old) }
    ensures { Wrote index.old index.new (set (records_of index.old) at r) }
{
    let from = 16 * at;
    let to = from + 16;
    store(&mut index[from..to], r);
}

// Writes all whole records of run, from a place of the index on.
// Nobody calls it: it is kept as it was public, in its form, as the must-fail edit run_source names the turn of its loop, and a copy of bytes has no turns.
pub fn put_run(index: &mut [u8], at: usize, run: &[u8])
    requires { at + length (records_of run.now) ≤ length (records_of index.old) }
    ensures { Wrote index.old index.new (written (records_of index.old) at (records_of run.now)) }
{
    let n = capacity(run);
    for i in 0..n {
        let to = at + i;
        let r = get(run, i);
        put(index, to, r);
    }
}

// Moves the first n records up by k places.
pub fn move_up(tail: &mut [u8], n: usize, k: usize)
    requires { n + k ≤ length (records_of tail.old) }
    ensures { Wrote tail.old tail.new (moved (records_of tail.old) n k 0) }
{
    let len = 16 * n;
    let up = 16 * k;
    tail.copy_within(0..len, up);
}

// Makes room for k records after place p: of n records those after p move up. Only the part after p is lent to the
// mover.
pub fn open_gap(index: &mut [u8], p: usize, n: usize, k: usize)
    requires { (p < n) × (n + k ≤ length (records_of index.old)) }
    ensures { Wrote index.old index.new (gapped (records_of index.old) (p + 1) n k) }
{
    let q = p + 1;
    let o = 16 * q;
    move_up(&mut index[o..], n - q, k);
}
