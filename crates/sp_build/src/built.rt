//! The netlist of a program.
ghost use Rattle.std.specs.Prelude.{◌≡◌, None, IfOk, IfSome};
ghost use Rattle.sp_netlist.specs.Rules.{IsNetlist};
ghost use Rattle.sp_tree.specs.ProgramParts.{plain_program};
ghost use Rattle.sp_build.specs.Buildable.{IsUnbuilt};
ghost use Rattle.sp_build.specs.Carries.{Carries, CostIsKept};

use crate::NoMemory;
use crate::buildable::is_buildable;
use crate::latencies::latencies_are_short;
use crate::laws::{buildable_cores_can_be_lowered, cores_carry_programs, cores_keep_costs};
use sp_compile::plan_to_build;
use sp_lower::lower;
use sp_netlist::Netlist;
use sp_tree::Program;
use std::alloc::Global;

/// The netlist of a program, or none where its core isn't one of those that can be built so far.
pub fn build(alloc: Global, program: &Program) -> Result<Option<Netlist>, NoMemory>
    ensures netlist { IfOk result (λ built. IfSome built (λ netlist. IsNetlist netlist)) }
    ensures carries { IfOk result (λ built. IfSome built (λ netlist. Carries (plain_program program.now) netlist)) }
    ensures cost { IfOk result (λ built. IfSome built (λ netlist. CostIsKept (plain_program program.now) netlist)) }
    ensures unbuilt { IfOk result (λ built. built ≡ None → IsUnbuilt (plain_program program.now)) }
{
    // What every program keeps.
    program.mems();
    buildable_cores_can_be_lowered();
    cores_carry_programs();
    cores_keep_costs();
    let made = plan_to_build(alloc, program)?;
    if !is_buildable(&made.core) {
        return Ok(None);
    }
    latencies_are_short(&made.plan);
    let netlist = lower(alloc, &made.core, &made.plan)?;
    Ok(Some(netlist))
}
