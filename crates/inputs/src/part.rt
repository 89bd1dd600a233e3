// What a record of an input is; any other kind is a call's, an index's or code.
ghost use Rattle.std.specs.Prelude.{◌≡◌};
ghost use Rattle.inputs.specs.Parts.{part_kind};

// The kinds of the records that say what an input is. Their meaning is said where they are read.
#[derive(Clone, Copy, PartialEq, Eq)]
pub enum Part {
    Settings = 240,
    Start = 241,
    Plan = 242,
    Given = 243,
    Input = 246,
}

// The byte of the format. By hand, with a cast: no derive makes a From of an enum to its number, and `as` stands here alone.
impl From<Part> for u8 {
    ghost from_gives = { λ part n. n ≡ part_kind part };

    fn from(part: Part) -> u8 {
        part as u8
    }
}
