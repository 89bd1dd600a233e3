// What is read of an input, with what it says of its run.
ghost use Rattle.std.specs.Prelude.{◌≡◌, ◌+◌, ◌≤◌, ◌<◌};
ghost use Rattle.walk_inputs.specs.Plan.{plan_of, step_of};

use crate::Plan;

// An input of at most 65,536 records, its plan, and how many records a call has.
#[derive(Clone, Copy)]
pub struct Input<'a> {
    pub bytes: &'a [u8],
    pub plan: Plan,
    pub step: usize,
    pub ghost plan_value: { plan ≡ plan_of bytes.now },
    pub ghost step_value: { step ≡ step_of bytes.now },
    pub ghost step_bound: { (1 ≤ step) × (step < 4294967296) },
    pub ghost places: { plan.place + plan.calls + plan.index ≤ 65539 },
    pub ghost calls: { (plan.calls ≤ 65536) × (plan.index ≤ 65536) },
    pub ghost room: { (plan.starts ≤ 65536) × (plan.capacity ≤ 65535) },
}
