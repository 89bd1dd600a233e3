// Why a call is refused.
ghost use Rattle.std.specs.Prelude.{◌≡◌};
ghost use Rattle.indexing_iter.specs.Refusals.{refusal_number};

use std::error::Error;
use std::fmt;

// A refusal; its number is the one of document 01's table.
#[derive(Clone, Copy, Debug, PartialEq, Eq)]
pub enum Refusal {
    Arity = 1,
    ChosenArgument = 2,
    CodeSize = 3,
    Starts = 4,
    NoBody = 5,
    KeyRecord = 6,
    Register = 7,
    OpenClause = 8,
    NoRoom = 9,
    Call = 10,
    Out = 11,
    Index = 12,
}

// The number of a refusal, 1 to 12. By hand and by `as`: no derive makes a From of an enum.
impl From<Refusal> for u32 {
    ghost from_gives = { λ refusal n. n ≡ refusal_number refusal };

    fn from(refusal: Refusal) -> u32 {
        refusal as u32
    }
}

impl fmt::Display for Refusal {
    fn fmt<W: fmt::Write>(&self, f: &mut fmt::Formatter<W>) -> fmt::Result {
        f.write_str(match self {
            Refusal::Arity => "the arity is not 1 to 32",
            Refusal::ChosenArgument => "the chosen argument is 0 or above the arity",
            Refusal::CodeSize => "the code is not whole records, or more than 32,768",
            Refusal::Starts => "the starts are none, too many, not rising or past the code's end",
            Refusal::NoBody => "a clause has no body record",
            Refusal::KeyRecord => "a keyed record has a wrong field",
            Refusal::Register => "a register is 0, above the arity or not above the one before",
            Refusal::OpenClause => "a clause has no key at the chosen argument",
            Refusal::NoRoom => "the index does not fit",
            Refusal::Call => "the call is not a right record for each argument",
            Refusal::Out => "out is shorter than the starts",
            Refusal::Index => "the index is too long or not well formed",
        })
    }
}

impl Error for Refusal {}
