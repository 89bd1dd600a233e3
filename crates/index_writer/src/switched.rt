// The settings of a predicate with the argument that a line's switch is on.
// All settings are handed on, also where mask and extensible alone are read: a value of them is at hand everywhere, and may hold any other numbers.
ghost use Rattle.std.specs.Prelude.{◌≤◌};

use indexing_iter::Settings;

// The argument is at most the arity, and that at most 32.
#[derive(Clone, Copy)]
pub struct Switched {
    pub settings: Settings,
    pub arg: u32,
    pub ghost arg_bound: { arg ≤ settings.arity },
    pub ghost arity_bound: { settings.arity ≤ 32 },
}
