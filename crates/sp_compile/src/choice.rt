//! The plan of a program.
ghost use Rattle.std.specs.Prelude.{◌≡◌, ℕ, Err, IfOk};
ghost use Rattle.sp_tree.specs.ProgramParts.{plain_program};
ghost use Rattle.sp_core.specs.CoreParts.{plain_core};
ghost use Rattle.sp_core.specs.Invariant.{IsCore};
ghost use Rattle.sp_lanes.specs.Unrolled.{unrolled};
ghost use Rattle.sp_plan.specs.Plain.{plain_plan};
ghost use Rattle.sp_narrow.specs.Narrow.{narrow};
ghost use Rattle.sp_compile.specs.Choices.{lanes_of, built_core, IsPlanFor, IsPlanOf};

use crate::NoMemory;
use sp_core::{Core, CoreError, wrong_cores_are_shown};
use sp_desugar::desugar;
use sp_lane_cores::programs_stay_cores;
use sp_meets::meets;
use sp_narrow::{narrow_cores_stay_cores, narrow_node};
use sp_patterns::patterns;
use sp_plan::Plan;
use sp_plans::planned;
use sp_tree::Program;
use sp_unroll::{copied_ports, in_lanes, unroll};
use std::alloc::{AllocError, Global};

/// A program's core, whose lanes stand one after the other, and its plan.
#[derive(Debug, Drop)]
pub struct Planned {
    pub core: Core,
    pub plan: Plan,
}

/// A core whose lanes stand one after the other, where that is a core.
fn laned(alloc: Global, core: &Core) -> Result<Core, NoMemory>
    requires { IsCore (unrolled (plain_core core.now)) }
    ensures { IfOk result (λ lanes. plain_core lanes ≡ unrolled (plain_core core.now)) }
{
    match unroll(alloc, core) {
        Ok(lanes) => Ok(lanes),
        Err(CoreError::Memory) => Err(AllocError),
        Err(CoreError::Shape { .. }) => unreachable!(),
    }
}

/// The core of a program, whose lanes stand one after the other.
fn core_in_lanes(alloc: Global, program: &Program) -> Result<Core, NoMemory>
    ensures { IfOk result (λ core. plain_core core ≡ lanes_of (plain_program program.now)) }
{
    // What every program keeps.
    program.mems();
    let core = desugar(alloc, program)?;
    programs_stay_cores();
    let lanes = laned(alloc, &core)?;
    Ok(lanes)
}

/// The core whose lanes stand one after the other, and each load and each store of which has one lane.
fn narrow_unrolled(alloc: Global, core: &Core) -> Result<Core, CoreError>
    ensures lanes { IfOk result (λ made. plain_core made ≡ narrow (unrolled (plain_core core.now))) }
    ensures none { (node : ℕ) → result ≡ Err (CoreError.Shape node) → ¬ IsCore (narrow (unrolled (plain_core core.now))) }
{
    wrong_cores_are_shown();
    let made = in_lanes(alloc, core)?;
    let root = narrow_node(alloc, &made.root)?;
    let ports = copied_ports(alloc, core.ports())?;
    Core::new(alloc, made.mems, ports, root)
}

/// The same, where that is a core.
fn narrow_laned(alloc: Global, core: &Core) -> Result<Core, NoMemory>
    requires { IsCore (narrow (unrolled (plain_core core.now))) }
    ensures { IfOk result (λ lanes. plain_core lanes ≡ narrow (unrolled (plain_core core.now))) }
{
    match narrow_unrolled(alloc, core) {
        Ok(lanes) => Ok(lanes),
        Err(CoreError::Memory) => Err(AllocError),
        Err(CoreError::Shape { .. }) => unreachable!(),
    }
}

/// The core that is built of a program.
fn core_to_build(alloc: Global, program: &Program) -> Result<Core, NoMemory>
    ensures { IfOk result (λ core. plain_core core ≡ built_core (plain_program program.now)) }
{
    // What every program keeps.
    program.mems();
    let core = desugar(alloc, program)?;
    programs_stay_cores();
    narrow_cores_stay_cores();
    let lanes = narrow_laned(alloc, &core)?;
    Ok(lanes)
}

/// What is decided of a core, by the core alone: the first schemes that keep accesses apart, the least times and intervals, the
/// finest slots and chains, and the copies and duplicates that these ask.
fn plan_for(alloc: Global, core: Core) -> Result<Planned, NoMemory>
    ensures core { IfOk result (λ made. plain_core made.core ≡ plain_core core) }
    ensures plan { IfOk result (λ made. IsPlanFor (plain_core core) (plain_plan made.plan)) }
{
    let forms = patterns(alloc, &core)?;
    let meets = meets(alloc, &core, &forms)?;
    let plan = planned(alloc, &core, &forms, &meets)?;
    Ok(Planned { core, plan })
}

/// What is decided of a program: of its core in lanes.
pub fn plan(alloc: Global, program: &Program) -> Result<Planned, NoMemory>
    ensures core { IfOk result (λ made. plain_core made.core ≡ lanes_of (plain_program program.now)) }
    ensures plan { IfOk result (λ made. IsPlanOf (plain_program program.now) (plain_plan made.plan)) }
{
    let core = core_in_lanes(alloc, program)?;
    let made = plan_for(alloc, core)?;
    Ok(made)
}

/// What is decided of the core that is built of a program.
pub fn plan_to_build(alloc: Global, program: &Program) -> Result<Planned, NoMemory>
    ensures core { IfOk result (λ made. plain_core made.core ≡ built_core (plain_program program.now)) }
    ensures plan { IfOk result (λ made. IsPlanFor (built_core (plain_program program.now)) (plain_plan made.plan)) }
{
    let core = core_to_build(alloc, program)?;
    let made = plan_for(alloc, core)?;
    Ok(made)
}
