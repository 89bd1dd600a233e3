// Pointers of a switch's entries: bit 31 marks an internal one, and the lower bits are its distance.
ghost use Rattle.std.specs.Prelude.{◌≡◌, ◌+◌, ◌<◌};
ghost use Rattle.records.specs.Pointer.{internal_word, is_internal, distance_of};

const TAG: u32 = 0x8000_0000;

const LOW: u32 = 0x7fff_ffff;

// The internal pointer with a distance: the tag is joined to it.
pub fn internal(distance: u32) -> u32
    requires { distance < 2147483648 }
    ensures { result ≡ internal_word distance }
{
    distance | TAG
}

// Whether a pointer is internal.
pub fn is_internal(p: u32) -> bool
    ensures { result ≡ is_internal p }
{
    p >> 31 == 1
}

// The distance, without the tag.
pub fn distance(p: u32) -> u32
    ensures { result ≡ distance_of p }
{
    p & LOW
}

// The same tag, and a distance that is more by some.
pub fn grown(p: u32, by: u32) -> u32
    requires { distance_of p + by < 2147483648 }
    ensures { result ≡ p + by }
{
    (p & TAG) | ((p & LOW) + by)
}
