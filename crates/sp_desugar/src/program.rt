//! The core of a program.
ghost use Rattle.std.specs.Prelude.{◌≡◌, map, length, IfOk};
ghost use Rattle.sp_words.specs.Ports.{plain_port, plain_ports};
ghost use Rattle.sp_tree.specs.Invariant.{IsProgram};
ghost use Rattle.sp_tree.specs.ProgramParts.{plain_program};
ghost use Rattle.sp_core.specs.CoreParts.{plain_core};
ghost use Rattle.sp_core.specs.Invariant.{IsCore};
ghost use Rattle.sp_core.specs.Plain.{plain_mem};
ghost use Rattle.sp_sugar.specs.Core.{core_of};
ghost use Rattle.sp_outcomes.specs.Laws.{EndsAs};
ghost use Rattle.sp_lane_cores.specs.LanedLaws.{MayHaveLanes};
ghost use Rattle.sp_lane_cores.specs.LanedMarks.{IsLaned};
ghost use Rattle.sp_lane_cores.specs.LanedWeights.{IsLight};
ghost use Rattle.sp_proper.specs.Laws.{AreStreamsProper};

use crate::NoMemory;
use crate::tree::alone;
use sp_core::{Core, CoreError, CoreMem, Node, wrong_cores_are_shown};
use sp_lane_cores::{programs_are_laned, programs_are_light, programs_have_lanes};
use sp_operations::push_written;
use sp_outcomes::programs_are_followed;
use sp_proper::stream_blocks_are_proper;
use sp_sugar::programs_become_cores;
use sp_tree::Program;
use sp_words::{PortDecl, Ports};
use std::alloc::{AllocError, Global};

fn copied_port(alloc: Global, port: &PortDecl) -> Result<PortDecl, NoMemory>
    ensures { IfOk result (λ copy. plain_port copy ≡ plain_port port.now) }
{
    Ok(PortDecl {
        name: String::from_str(alloc, &port.name)?,
        ty: port.ty,
        dims: Vec::from_slice(alloc, &port.dims)?,
    })
}

fn copied_list(alloc: Global, ports: &[PortDecl]) -> Result<Vec<PortDecl>, NoMemory>
    ensures { IfOk result (λ copies. map plain_port copies.items ≡ map plain_port ports.now) }
{
    let mut copies = Vec::new(alloc);
    for port in ports {
        copies.push(copied_port(alloc, port)?)?;
    }
    Ok(copies)
}

fn copied(alloc: Global, ports: &Ports) -> Result<Ports, NoMemory>
    ensures { IfOk result (λ copy. plain_ports copy ≡ plain_ports ports.now) }
{
    Ok(Ports {
        args: copied_list(alloc, &ports.args)?,
        outs: copied_list(alloc, &ports.outs)?,
        drams: copied_list(alloc, &ports.drams)?,
    })
}

/// How many counters a program has.
fn counter_count(program: &Program) -> Result<u32, NoMemory>
    ensures { IfOk result (λ n. n ≡ length (plain_program program.now).counters) }
{
    let n = program.counters().len();
    if n > u32::MAX as usize {
        return Err(AllocError);
    }
    Ok(n as u32)
}

/// The core of parts that keep the rules of cores.
fn core_of_parts(
    alloc: Global,
    mems: Vec<CoreMem>,
    ports: Ports,
    root: Node,
) -> Result<Core, NoMemory>
    requires { IsCore (plain_core (record { mems = map plain_mem mems.items; ports = plain_ports ports; root = root })) }
    ensures { IfOk result (λ core. core ≡ record { mems = map plain_mem mems.items; ports = plain_ports ports; root = root }) }
{
    wrong_cores_are_shown();
    match Core::new(alloc, mems, ports, root) {
        Ok(core) => Ok(core),
        Err(CoreError::Memory) => Err(AllocError),
        Err(CoreError::Shape { .. }) => unreachable!(),
    }
}

/// The core of a program, as it is defined.
fn defined_core(alloc: Global, program: &Program) -> Result<Core, NoMemory>
    ensures core { IfOk result (λ core. plain_core core ≡ core_of (plain_program program.now)) }
    ensures ports { IfOk result (λ core. core.ports ≡ program.now.ports) }
    ensures program { IsProgram (plain_program program.now) }
{
    let mut mems = Vec::new(alloc);
    push_written(alloc, &mut mems, program.mems())?;
    let counters = counter_count(program)?;
    let body = program.body();
    let root = alone(alloc, body, program.mems(), counters, &mut mems, &[])?;
    let ports = copied(alloc, program.ports())?;
    programs_become_cores();
    let core = core_of_parts(alloc, mems, ports, root)?;
    Ok(core)
}

/// The core of a program: its memories without its DRAMs, in the order of the text, and then the registers that are
/// added; its ports; and its block as a tree of loops and transfers over lists of operations, before its lanes stand one
/// after the other. Where the program ends, its core ends with the same words, and counts as much. No combination owns a
/// memory; only the last counter of a controller has several lanes; a combination stands where it is marked, and nothing
/// else in its loop names its accumulator; the core is small enough for its lanes to stand one after the other; and each of
/// its stream blocks is proper.
pub fn desugar(alloc: Global, program: &Program) -> Result<Core, NoMemory>
    ensures core { IfOk result (λ core. plain_core core ≡ core_of (plain_program program.now)) }
    ensures ports { IfOk result (λ core. core.ports ≡ program.now.ports) }
    ensures ends { IfOk result (λ core. EndsAs (plain_program program.now) (plain_core core)) }
    ensures lanes { IfOk result (λ core. MayHaveLanes (plain_core core)) }
    ensures marks { IfOk result (λ core. IsLaned (plain_core core) (plain_core core).root) }
    ensures light { IfOk result (λ core. IsLight (plain_core core)) }
    ensures proper { IfOk result (λ core. AreStreamsProper (plain_core core)) }
{
    programs_are_followed();
    programs_have_lanes();
    programs_are_laned();
    programs_are_light();
    stream_blocks_are_proper();
    defined_core(alloc, program)
}
