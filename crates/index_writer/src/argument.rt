// The number of a predicate's argument.
ghost use Rattle.std.specs.Prelude.{◌≤◌};

// Counted from 1: a predicate has at most 32.
#[derive(Clone, Copy)]
pub struct Argument {
    pub number: u32,
    pub ghost bound: { (1 ≤ number) × (number ≤ 32) },
}
