//! Whether the plan of an outer body is right.

ghost use Rattle.std.specs.Prelude.{◌≡◌, ◌≤◌, ◌+◌, ◌^◌, ◌||◌, map};
ghost use Rattle.sp_core.specs.CoreParts.{plain_core};
ghost use Rattle.sp_core.specs.Declarations.{is_stream};
ghost use Rattle.sp_core.specs.Numbering.{number_count_in};
ghost use Rattle.sp_core.specs.Plain.{plain_counter, plain_stage_list};
ghost use Rattle.sp_plan.specs.Slots.{runs_of};
ghost use Rattle.sp_plan.specs.Validity.{are_divided_right};

use crate::chains::are_chains_right;
use crate::held::are_held;
use crate::site::is_stream;
use crate::slots::are_slots_right;
use sp_core::{Core, CoreCounter, Meet, Stage};
use sp_words::Style;

/// Whether the slots and chains of a body are right, by the number of its first stage's first operation: slots without a
/// gap that hold together what meets, and chains that do in each slot. A `Stream` block has none.
pub fn are_body_runs_right(
    core: &Core,
    counters: &[CoreCounter],
    style: Style,
    owned: &[u32],
    meets: &[Meet],
    number: u32,
    stages: &[Stage],
    slots: &[u32],
    chains: &[u32],
) -> bool
    requires { number + number_count_in (plain_stage_list stages.now) ≤ 2 ^ 30 }
    ensures { result ≡ (is_stream style || are_divided_right (plain_core core.now) meets.now (runs_of number (plain_stage_list stages.now)) (map plain_counter counters.now) style owned.now slots.now chains.now) }
{
    is_stream(style)
        || (are_slots_right(counters, style, number, stages, slots)
            && (are_held(core, counters, owned, meets, number, stages, slots)
                && are_chains_right(core, counters, style, meets, number, stages, slots, chains)))
}
