// The parts of a walk that read a stored index or work out a line that is not stored, the checks of a call, numbers 10 and 11, and the
// witness. The loop of the walk is in indexing_walk, which has the expansion too.
#![tactic(auto)]

pub mod calls;
pub mod case;
pub mod query;
pub mod stored;
pub mod stored_index;
pub mod unstored;
pub mod witness;
