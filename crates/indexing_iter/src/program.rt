// Code that passed its checks, and code of which an index can be built.
ghost use Rattle.std.specs.Prelude.{◌≡◌, ℕ, ◌<◌, get_or};
ghost use Rattle.indexing_iter.specs.Refusals.{passed};
ghost use Rattle.indexing_iter.specs.Classes.{class_of};
ghost use Rattle.indexing_iter.specs.Checks.{check_code, check_build};

use crate::refusal::Refusal;
use crate::{Settings, checks};

// A predicate: its code, the starts of its clauses and its settings, where 1 and 3 to 7 do not apply.
#[derive(Clone, Copy)]
pub struct Program<'a> {
    pub code: &'a [u8],
    pub starts: &'a [u32],
    pub settings: Settings,
    pub ghost bytes: { (i : ℕ) → get_or code.now i 0 < 256 },
    pub ghost checked: { check_code class_of settings.arity code.now starts.now ≡ passed },
}

impl<'a> Program<'a> {
    ghost use Rattle.std.specs.Prelude.{IfOk};
    ghost use Rattle.indexing_iter.specs.Programs.{checked_of};

    // Code with its starts and settings, where it passes 1 and 3 to 7.
    pub fn check(code: &'a [u8], starts: &'a [u32], settings: Settings) -> Result<Self, Refusal>
        ensures value { checked_of result ≡ check_code class_of settings.arity code.now starts.now }
        ensures made { IfOk result (λ p. (p.code.now ≡ code.now) × (p.starts.now ≡ starts.now) × (p.settings ≡ settings)) }
    {
        checks::check_code(code, starts, settings.arity)?;
        Ok(Program {
            code,
            starts,
            settings,
        })
    }
}

// A predicate with the argument of its index's first switch, where 2 and 8 do not apply either.
#[derive(Clone, Copy)]
pub struct Build<'a> {
    pub program: Program<'a>,
    pub c: u32,
    pub ghost chosen: { check_build class_of program.settings.arity c program.code.now program.starts.now ≡ passed },
}

impl<'a> Build<'a> {
    ghost use Rattle.std.specs.Prelude.{IfOk};
    ghost use Rattle.indexing_iter.specs.Programs.{checked_of};

    // Code with its starts, settings and argument, where it passes 1 to 8.
    pub fn check(
        code: &'a [u8],
        starts: &'a [u32],
        settings: Settings,
        c: u64,
    ) -> Result<Self, Refusal>
        ensures value { checked_of result ≡ check_build class_of settings.arity c code.now starts.now }
        ensures made { IfOk result (λ b. (b.program.code.now ≡ code.now) × (b.program.starts.now ≡ starts.now) × (b.program.settings ≡ settings) × (b.c ≡ c)) }
    {
        checks::check_build(code, starts, settings.arity, c)?;
        let program = Program {
            code,
            starts,
            settings,
        };
        // check_build said that c is at most 32: it is a u32.
        Ok(Build {
            program,
            c: c as u32,
        })
    }
}
