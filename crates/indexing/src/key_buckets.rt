// Buckets of numbered items: equal keys are looked for in one bucket only.
// A usize becomes a u64 or a u16, and a u64 a usize, by `as`: there is no From for them. Each is proved to fit.
// That a bucket is below the number of buckets is asked of push and find, and of who calls them: bucket_of says it of its answer.
ghost use Rattle.std.specs.Prelude.{◌≡◌, Bool, ℕ, ◌+◌, ◌<◌, ◌≤◌, eqb, get_or, set};
ghost use Rattle.indexing.specs.Chains.{bucket_by, Chained, Cleared, Tells};

// The bucket of a key, of size many: of its two numbers alone, so that equal keys have the same.
pub fn bucket_of(head: u32, bits: u64, size: usize) -> usize
    requires { 0 < size }
    ensures { (result ≡ bucket_by size head bits) × (result < size) }
{
    ((bits % 4294967291 + 40503 * u64::from(head)) % (size as u64)) as usize
}

// What the items of a bucket answer to a test: one that passes it, or that none does; Open where the first 32 do not decide it.
// An enum of its own, and no Option or Result: there are three outcomes, of which none is an error.
#[derive(Clone, Copy, Debug, PartialEq, Eq)]
pub enum Searched {
    Found(usize),
    Nowhere,
    Open,
}

// The buckets: each has the number of its latest item, counted from 1, and links has at each item that of the one before it in its bucket. 0 is none,
// and no Option: an Option<u16> has twice the bytes, which each call clears.
#[derive(Drop)]
pub struct Chains<const BUCKETS: usize, const LINKS: usize> {
    pub firsts: [u16; BUCKETS],
    pub links: [u16; LINKS],
}

impl<const BUCKETS: usize, const LINKS: usize> Chains<BUCKETS, LINKS> {
    // No item in any bucket.
    pub fn new() -> Self
        ensures { Cleared result.firsts }
    {
        Chains {
            firsts: [0; BUCKETS],
            links: [0; LINKS],
        }
    }

    // An item becomes the latest of its bucket.
    pub fn push(&mut self, bucket: usize, item: usize)
        requires { (bucket < BUCKETS) × (item < LINKS) × (item < 65535) }
        ensures firsts_after { self.new.firsts ≡ set self.old.firsts bucket (item + 1) }
        ensures links_after { self.new.links ≡ set self.old.links item (get_or self.old.firsts bucket 0) }
        ensures chained { (holds : ℕ → ℕ → Bool) → Chained holds self.old.firsts self.old.links item → ((b : ℕ) → holds b item ≡ eqb bucket b)
            → Chained holds self.new.firsts self.new.links (item + 1) }
    {
        self.links[item] = self.firsts[bucket];
        self.firsts[bucket] = (item + 1) as u16;
    }

    // The items of a bucket are tested, the latest first, at most 32 of them: a crowded bucket costs little more than no buckets.
    pub fn find<F: Fn(usize) -> bool>(&self, bucket: usize, test: F) -> Searched
        requires bucket_in_bounds { bucket < BUCKETS }
        requires chained { (holds : ℕ → ℕ → Bool) × (n : ℕ) × Chained holds self.now.firsts self.now.links n × (n ≤ LINKS) × ((i : ℕ) → i < n → F.pre test i) }
        ensures { (holds : ℕ → ℕ → Bool) (n : ℕ) (t : ℕ → Bool) → Chained holds self.now.firsts self.now.links n
            → ((i : ℕ) (b : Bool) → i < n → F.post test i b → b ≡ t i) → Tells holds bucket n t result }
    {
        let mut number = usize::from(self.firsts[bucket]);
        for _ in 0..32_u32 {
            if number == 0 {
                return Searched::Nowhere;
            }
            let i = number - 1;
            if test(i) {
                return Searched::Found(i);
            }
            number = usize::from(self.links[i]);
        }
        if number == 0 {
            Searched::Nowhere
        } else {
            Searched::Open
        }
    }
}
