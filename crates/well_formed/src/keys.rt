// The keys of a switch are distinct.
// at is below the number of entries in each function that reads one: a place is another number in each call.
ghost use Rattle.std.specs.Prelude.{◌≡◌, ◌+◌, ◌-◌, ◌<◌, ◌≤◌, length, drop, get_or};
ghost use Rattle.records.specs.Records.{records_of, zero_rec};
ghost use Rattle.indexing_iter.specs.Rows.{head_by};
ghost use Rattle.well_formed.specs.Pass.{same_fields, among, distinct_keys};
ghost use Rattle.indexing.specs.Chains.{Chained};
ghost use Rattle.well_formed.specs.Chains.{bucket_of, in_bucket};

use indexing::key_buckets::{self, Chains, Searched};
use records::Rec;

// The first number of an entry's key: its sort and arity.
fn head_from(r: Rec) -> u32
    ensures { (result ≡ head_by r.sub r.half) × (r.half < 65536) }
{
    indexing_iter::head_by(u16::from(r.sub), r.half)
}

// Whether two entries have equal keys.
fn same_fields(r: Rec, q: Rec) -> bool
    ensures { result ≡ same_fields r q }
{
    indexing_iter::same_bits(head_from(r), r.long, head_from(q), q.long)
}

// Whether the entry at a place has the key of r.
fn key_at(entries: &[u8], r: Rec, at: usize) -> bool
    requires { at < length (records_of entries.now) }
    ensures { result ≡ same_fields r (get_or (records_of entries.now) at zero_rec) }
{
    let q = records::get(entries, at);
    same_fields(r, q)
}

// Whether one of the entries has the key of r. Here and below loops go over places, as there is no slice of records; `any` and `all` over the places were
// tried: a later call took 4 to 5 % more instructions.
fn key_among(entries: &[u8], r: Rec) -> bool
    ensures { result ≡ among r (records_of entries.now) }
{
    for i in 0..records::capacity(entries) {
        if key_at(entries, r, i) {
            return true;
        }
    }
    false
}

// Whether one of the entries behind a place has the key of r.
fn key_behind(entries: &[u8], r: Rec, at: usize) -> bool
    requires { at < length (records_of entries.now) }
    ensures { result ≡ among r (drop (at + 1) (records_of entries.now)) }
{
    let n = records::capacity(entries);
    let behind = records::part(entries, at + 1, n);
    key_among(behind, r)
}

// Whether no two of the entries have equal keys, pair by pair.
fn distinct_pairs(entries: &[u8]) -> bool
    ensures { result ≡ distinct_keys (records_of entries.now) }
{
    for i in 0..records::capacity(entries) {
        let r = records::get(entries, i);
        if key_behind(entries, r, i) {
            return false;
        }
    }
    true
}

// Whether one of the entries behind a place has its key: those in its bucket are compared, and all behind it where these do not decide it. Entries
// are items counted from the last.
fn key_chained<const BUCKETS: usize, const LINKS: usize>(
    entries: &[u8],
    at: usize,
    bucket: usize,
    chains: &Chains<BUCKETS, LINKS>,
) -> bool
    requires at_in_bounds { (at < length (records_of entries.now)) × (length (records_of entries.now) ≤ LINKS) }
    requires bucket_value { (bucket ≡ bucket_of BUCKETS (get_or (records_of entries.now) at zero_rec)) × (bucket < BUCKETS) }
    requires chained { let R = records_of entries.now in Chained (in_bucket BUCKETS R (length R)) chains.now.firsts chains.now.links (length R - (at + 1)) }
    ensures { result ≡ among (get_or (records_of entries.now) at zero_rec) (drop (at + 1) (records_of entries.now)) }
{
    let n = records::capacity(entries);
    let r = records::get(entries, at);
    match chains.find(bucket, |i| key_at(entries, r, n - 1 - i)) {
        Searched::Found(_) => true,
        Searched::Nowhere => false,
        Searched::Open => key_behind(entries, r, at),
    }
}

// Whether no two of the entries have equal keys: from the last to the first, each compared with those behind it in its bucket.
fn distinct_chained<const BUCKETS: usize, const LINKS: usize>(entries: &[u8]) -> bool
    requires sizes { (0 < BUCKETS) × (BUCKETS ≤ 16381) × (LINKS ≤ 65535) }
    requires in_bounds { length (records_of entries.now) ≤ LINKS }
    ensures { result ≡ distinct_keys (records_of entries.now) }
{
    let n = records::capacity(entries);
    let mut chains = Chains::<BUCKETS, LINKS>::new();
    for i in (0..n).rev() {
        let r = records::get(entries, i);
        let bucket = key_buckets::bucket_of(head_from(r), r.long, BUCKETS);
        if key_chained(entries, i, bucket, &chains) {
            return false;
        }
        chains.push(bucket, n - 1 - i);
    }
    true
}

// Whether no two of the entries have equal keys: few pair by pair, more by buckets, at most 1,024 with little to clear. An index
// has at most 65,535 entries.
pub fn distinct_keys(entries: &[u8]) -> bool
    ensures { result ≡ distinct_keys (records_of entries.now) }
{
    match records::capacity(entries) {
        33..=1024 => distinct_chained::<1021, 1024>(entries),
        1025..=65535 => distinct_chained::<16381, 65535>(entries),
        _ => distinct_pairs(entries),
    }
}
