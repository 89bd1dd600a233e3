// The tags of a line's offsets.
ghost use Rattle.std.specs.Prelude.{◌≡◌};
ghost use Rattle.indexing.specs.Tags.{tag_number, tag_from};

use crate::kinds::UnknownByte;

// How a clause is tried among the clauses of its line: in a static line by its place, by the default forms where choice points are not counted; in a
// dynamic line A or Z.
#[derive(Clone, Copy, Debug, PartialEq, Eq)]
pub enum Tag {
    Try = 1,
    Retry = 2,
    DefaultRetry = 3,
    Trust = 4,
    DefaultTrust = 5,
    A = 6,
    Z = 7,
}

// The byte of a tag. By hand and by `as`: no derive makes a From of an enum.
impl From<Tag> for u8 {
    ghost from_gives = { λ tag n. n ≡ tag_number tag };

    fn from(tag: Tag) -> u8 {
        tag as u8
    }
}

// Kind has such an impl too: each enum has its own cases, and an impl by a macro of our own is refused by `rt ci`.
impl TryFrom<u8> for Tag {
    type Error = UnknownByte;

    ghost try_from_gives = { λ n tag. tag ≡ tag_from n };

    fn try_from(n: u8) -> Result<Self, UnknownByte> {
        match n {
            1 => Ok(Tag::Try),
            2 => Ok(Tag::Retry),
            3 => Ok(Tag::DefaultRetry),
            4 => Ok(Tag::Trust),
            5 => Ok(Tag::DefaultTrust),
            6 => Ok(Tag::A),
            7 => Ok(Tag::Z),
            _ => Err(UnknownByte(n)),
        }
    }
}
