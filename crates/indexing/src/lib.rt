// The index in definitions and laws: lines, tables and entries, building and expansion, the records of an index and back. The code is that of
// index_writer and indexing_builder, whose contracts cite these definitions; here is only what several crates share: two readings of the settings,
// the kinds of an index's records, the tags of offsets, and the buckets in which equal keys are found.
#![tactic(auto)]

pub mod key_buckets;
pub mod kinds;
pub mod tags;

ghost use Rattle.std.specs.Prelude.{◌≡◌, ◌≤◌};
ghost use Rattle.indexing.specs.Lines.{mode_of};
ghost use Rattle.indexing.specs.Build.{masked_at};

// A line's sub: 1 where it is dynamic.
pub fn mode_of(dynamic: bool) -> u8
    ensures { result ≡ mode_of dynamic }
{
    u8::from(dynamic)
}

// Whether bit a - 1 of the mask is set: argument a is never indexed on demand.
pub fn masked(mask: u32, a: u32) -> bool
    requires { (1 ≤ a) × (a ≤ 32) }
    ensures { result ≡ masked_at mask a }
{
    (mask >> (a - 1)) % 2 == 1
}
