// The records of an index, by what they say. The parts of a head become a u8 and a u16 by `as`: each is proved to fit.
ghost use Rattle.std.specs.Prelude.{◌≡◌, ◌/◌, ◌%◌};
ghost use Rattle.records.specs.Records.{rec_of};
ghost use Rattle.indexing.specs.Kinds.{kind_number};
ghost use Rattle.indexing.specs.Lines.{mode_of};

use indexing::kinds::Kind;
use records::Rec;

// A table of this kind for an argument: a switch, or one that is on demand or dead.
pub fn table(kind: Kind, argument: u16) -> Rec
    ensures { result ≡ rec_of (kind_number kind) 0 argument 0 0 }
{
    Rec {
        kind: kind.into(),
        half: argument,
        ..Rec::default()
    }
}

// The head of a line by its number, with whether the line is dynamic as its mode.
pub fn line(dynamic: bool, number: u32) -> Rec
    ensures { result ≡ rec_of 1 (mode_of dynamic) 0 number 0 }
{
    Rec {
        kind: Kind::Line.into(),
        sub: indexing::mode_of(dynamic),
        word: number,
        ..Rec::default()
    }
}

// An entry for a key in two numbers, with the word that leads to its bucket.
pub fn entry(head: u32, bits: u64, word: u32) -> Rec
    ensures { result ≡ rec_of 5 (head / 65536 % 256) (head % 65536) word bits }
{
    Rec {
        kind: Kind::Entry.into(),
        sub: (head / 65536 % 256) as u8,
        half: (head % 65536) as u16,
        word,
        long: bits,
    }
}

// The offset of a clause with its tag. The tag is a byte: that of a dynamic line is read from a record, and is handed on as it is.
pub fn choice(tag: u8, offset: u32) -> Rec
    ensures { result ≡ rec_of 6 tag 0 offset 0 }
{
    Rec {
        kind: Kind::Choice.into(),
        sub: tag,
        word: offset,
        ..Rec::default()
    }
}

// The offset of a clause of a dead table.
pub fn dead_clause(offset: u32) -> Rec
    ensures { result ≡ rec_of 7 0 0 offset 0 }
{
    Rec {
        kind: Kind::DeadClause.into(),
        word: offset,
        ..Rec::default()
    }
}
