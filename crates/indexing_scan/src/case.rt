// How a walk can end.
ghost use Rattle.std.specs.Prelude.{◌≡◌};
ghost use Rattle.indexing_scan.specs.Calls.{case_number};
ghost use Rattle.indexing_scan.specs.Cases.{case_of};

#[derive(Clone, Copy, Debug, PartialEq, Eq)]
pub enum Case {
    Fail = 1,
    External = 2,
    Sequence = 3,
    Variadic = 4,
}

// The number of a case, 1 to 4. By hand and by `as`: no derive makes a From of an enum.
impl From<Case> for u64 {
    ghost from_gives = { λ case n. n ≡ case_number (case_of case) };

    fn from(case: Case) -> u64 {
        case as u64
    }
}
