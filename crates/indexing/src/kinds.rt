// The kinds of an index's records.
ghost use Rattle.std.specs.Prelude.{◌≡◌};
ghost use Rattle.indexing.specs.Kinds.{kind_number, kind_in};

// What a record of an index is. A table is a record of its own with the records of its entries or dead clauses behind it.
#[derive(Clone, Copy, Debug, PartialEq, Eq)]
pub enum Kind {
    Line = 1,
    Switch = 2,
    OnDemand = 3,
    Dead = 4,
    Entry = 5,
    Choice = 6,
    DeadClause = 7,
}

// The byte of a kind. By hand and by `as`: no derive makes a From of an enum.
impl From<Kind> for u8 {
    ghost from_gives = { λ kind n. n ≡ kind_number kind };

    fn from(kind: Kind) -> u8 {
        kind as u8
    }
}

// A byte that is no kind of an index's records, or no tag: the byte that was met, for whoever reports it.
#[derive(Clone, Copy, Debug, PartialEq, Eq)]
pub struct UnknownByte(pub u8);

// Tag has such an impl too: each enum has its own cases, and an impl by a macro of our own is refused by `rt ci`.
impl TryFrom<u8> for Kind {
    type Error = UnknownByte;

    ghost try_from_gives = { λ n kind. kind ≡ kind_in n };

    fn try_from(n: u8) -> Result<Self, UnknownByte> {
        match n {
            1 => Ok(Kind::Line),
            2 => Ok(Kind::Switch),
            3 => Ok(Kind::OnDemand),
            4 => Ok(Kind::Dead),
            5 => Ok(Kind::Entry),
            6 => Ok(Kind::Choice),
            7 => Ok(Kind::DeadClause),
            _ => Err(UnknownByte(n)),
        }
    }
}
