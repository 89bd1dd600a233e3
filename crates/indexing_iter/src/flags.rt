// Settings from numbers: bits 0 to 3 of a number are the flags.
ghost use Rattle.std.specs.Prelude.{◌≡◌, ◌<◌};
ghost use Rattle.indexing_iter.specs.Flags.{flag_in, settings_by_flags};

use crate::Settings;

// The flag whose value is k.
pub fn flag(flags: u32, k: u32) -> bool
    requires { 0 < k }
    ensures { result ≡ flag_in flags k }
{
    flags / k % 2 == 1
}

impl Settings {
    // Settings from numbers; flags 1 dynamic, 2 extensible, 4 non-counted, 8 skip, and others are not read.
    #[tactic(auto, unfolding(crate::specs::Flags::settings_by_flags))]
    pub fn from_flags(arity: u32, mask: u32, flags: u32) -> Settings
        ensures { result ≡ settings_by_flags arity mask flags }
    {
        Settings {
            arity,
            mask,
            dynamic: flag(flags, 1),
            extensible: flag(flags, 2),
            non_counted: flag(flags, 4),
            skip: flag(flags, 8),
        }
    }
}
