// The clauses of a code, by their starts.
// A u32 becomes a usize by `as`: there is no From for it.
ghost use Rattle.std.specs.Prelude.{◌≡◌, true, length};
ghost use Rattle.records.specs.Records.{records_of};
ghost use Rattle.indexing_iter.specs.Checks.{rising_below};

use crate::checks;
use crate::reader::Reader;
use crate::refusal::Refusal;

// Code, the starts of its clauses, which rise and lie below the code's end, and the arity.
#[derive(Clone, Copy)]
pub struct Clauses<'r, 's> {
    pub reader: Reader<'r>,
    pub starts: &'s [u32],
    pub arity: u32,
    pub ghost rising: { rising_below (length (records_of reader.code.now)) starts.now ≡ true },
}

impl<'r, 's> Clauses<'r, 's> {
    ghost use Rattle.std.specs.Prelude.{◌+◌, ◌/◌, ◌≤◌, ◌<◌, get_or, [], IfOk};
    ghost use Rattle.indexing_iter.specs.Clauses.{clauses_of};
    ghost use Rattle.indexing_iter.specs.Checks.{otherwise, check_size, check_starts};
    ghost use Rattle.indexing_iter.specs.Programs.{checked_of};

    // Code with its starts and arity, where 3 and 4 do not apply.
    pub fn check(reader: &Reader<'r>, starts: &'s [u32], arity: u32) -> Result<Self, Refusal>
        ensures value { checked_of result ≡ otherwise (check_size reader.now.code.now) (check_starts (length reader.now.code.now / 16) starts.now) }
        ensures made { IfOk result (λ c. (c.reader ≡ reader.now) × (c.starts.now ≡ starts.now) × (c.arity ≡ arity)) }
    {
        checks::check_size(reader.code)?;
        checks::check_starts(starts, records::capacity(reader.code))?;
        Ok(Clauses {
            reader: *reader,
            starts,
            arity,
        })
    }

    // The code of clause i, with the table by which it is read.
    pub fn clause(&self, i: usize) -> Reader<'r>
        requires { i < length self.now.starts.now }
        ensures records { records_of result.code.now ≡ get_or (clauses_of (records_of self.now.reader.code.now) self.now.starts.now) i [] }
        ensures classes { result.table.now ≡ self.now.reader.table.now }
        ensures places_in_range { get_or self.now.starts.now i 0 + length (records_of result.code.now) < 18446744073709551616 }
    {
        let end = checks::clause_end(self.starts, i, records::capacity(self.reader.code));
        Reader {
            table: self.reader.table,
            code: records::part(self.reader.code, self.starts[i] as usize, end),
        }
    }
}
