// The keys of a line's clauses at one argument, in columns: each key is two numbers, its sort and arity in one, and its bits.
ghost use Rattle.std.specs.Prelude.{◌≡◌, ◌≤◌, length};

// heads and bits are read by place, beside columns of other numbers: no array of pairs. A place becomes a u32 by `as`: there are at most 1,024 clauses.
#[derive(Clone, Copy)]
pub struct Keys<'a> {
    pub heads: &'a [u32],
    pub bits: &'a [u64],
    pub ghost bits_len: { length bits.now ≡ length heads.now },
    pub ghost few: { length heads.now ≤ 1024 },
}

impl Keys<'_> {
    ghost use Rattle.std.specs.Prelude.{◌<◌};
    ghost use Rattle.indexing.specs.Columns.{same_at, leader_of};

    // Whether the keys of clauses i and j are equal.
    pub fn same_at(&self, i: usize, j: usize) -> bool
        requires { (i < length self.now.heads.now) × (j < length self.now.heads.now) }
        ensures { result ≡ same_at self.now.heads.now self.now.bits.now i j }
    {
        indexing_iter::same_bits(self.heads[i], self.bits[i], self.heads[j], self.bits[j])
    }

    // The leader of clause j. A loop: by `find` a build whose keys all fall into one bucket took over a quarter more instructions.
    pub fn leader_of(&self, j: usize) -> u32
        requires { j < length self.now.heads.now }
        ensures { result ≡ leader_of self.now.heads.now self.now.bits.now j }
    {
        for i in 0..j {
            if self.same_at(i, j) {
                return i as u32;
            }
        }
        j as u32
    }
}
