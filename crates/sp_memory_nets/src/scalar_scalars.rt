//! The circuit of a memory of a core that is one word.
ghost use Rattle.std.specs.Prelude.{◌≡◌, ◌≢◌, ℕ, ◌<◌, length, IfOk, OnOk};
ghost use Rattle.sp_words.specs.declared.kind.Kind.TheVariants.{ArgIn};
ghost use Rattle.sp_words.specs.Types.{width_of};
ghost use Rattle.sp_netlist.specs.Signals.{Signals};
ghost use Rattle.sp_gates.specs.Grows.{Fills};
ghost use Rattle.sp_gates.specs.Nets.{HasNet};
ghost use Rattle.sp_gates.specs.Runs.{RunsOn};
ghost use Rattle.sp_core.specs.CoreParts.{plain_core};
ghost use Rattle.sp_core.specs.Declarations.{mem, kind_of};
ghost use Rattle.sp_core.specs.Invariant.{IsCore};
ghost use Rattle.sp_core.specs.Plain.{plain_mem};
ghost use Rattle.sp_plan.specs.Plain.{plain_plan};
ghost use Rattle.sp_plan.specs.PlainPlan.{PlainPlan, mem_plan};
ghost use Rattle.sp_memory_nets.specs.ScalarFits.{ScalarFits};
ghost use Rattle.sp_memory_nets.specs.ScalarLists.{answers_to};
ghost use Rattle.sp_memory_nets.specs.ScalarRuns.{IsPartOf, IsFollowed, RunsWord, RunsScalar};

use crate::scalar_followers::emit_followers;
use crate::scalar_lists::{fresh_to, has_reset, reads_to, writes_to};
use sp_access_nets::{AccessNets, picks_accesses_to};
use sp_core::{Core, CoreMem};
use sp_gates::one;
use sp_mem::{Register, emit_register};
use sp_netlist::{Builder, NetId, NoMemory};
use sp_plan::Plan;
use sp_tree_handed::OwnerNets;
use sp_words::Kind;
use std::alloc::Global;

/// The memory of a number.
pub fn memory(core: &Core, m: u32) -> &CoreMem
    requires { m < length (plain_core core.now).mems }
    ensures memory { plain_mem result.now ≡ mem (plain_core core.now) m }
    ensures kind { result.now.kind ≡ kind_of (plain_core core.now) m }
    ensures core { IsCore (plain_core core.now) }
{
    &core.mems()[m as usize]
}

/// How many copies a memory has by a plan.
pub fn copies_of(plan: &Plan, m: u32) -> u32
    requires { m < length (plain_plan plan.now).mems }
    ensures { result ≡ (mem_plan (plain_plan plan.now) m).depth }
{
    plan.mems[m as usize].depth
}

/// The register of a memory, in its copies by a plan, with all that accesses and owners do to it.
fn register_of(
    alloc: Global,
    core: &Core,
    plan: &Plan,
    m: u32,
    accesses: &[AccessNets],
    owners: &OwnerNets,
    start: NetId,
) -> Result<Register, NoMemory>
    requires within { m < length (plain_core core.now).mems }
    requires planned { m < length (plain_plan plan.now).mems }
    ensures start { IfOk result (λ part. part.start ≡ start) }
    ensures part { IfOk result (λ part. IsPartOf (plain_core core.now) (plain_plan plan.now) accesses.now owners.now m part) }
    ensures core { OnOk result (IsCore (plain_core core.now)) }
{
    let mem = memory(core, m);
    let fresh = fresh_to(alloc, m, has_reset(mem.kind, mem.start), accesses, owners)?;
    let writes = writes_to(alloc, m, accesses, owners)?;
    let reads = reads_to(alloc, m, accesses)?;
    Ok(Register {
        start,
        ty: mem.ty,
        copies: copies_of(plan, m),
        first: mem.start,
        fresh,
        writes,
        reads,
    })
}

/// Emits a memory that is no argument. The net has the word of its copy 0.
fn emit_word(
    alloc: Global,
    builder: &mut Builder,
    core: &Core,
    plan: &Plan,
    accesses: &[AccessNets],
    owners: &OwnerNets,
    start: NetId,
    m: u32,
) -> Result<NetId, NoMemory>
    requires fits { (port : ℕ) × ScalarFits builder.old (plain_core core.now) (plain_plan plan.now) accesses.now owners.now port start m }
    ensures fills { OnOk result (Fills builder.old builder.new (answers_to m accesses.now)) }
    ensures net { IfOk result (λ net. HasNet builder.new net (width_of (mem (plain_core core.now) m).ty)) }
    ensures runs { IfOk result (λ net. (s : Signals) → RunsOn s builder.new.cells → RunsWord (plain_core core.now) (plain_plan plan.now) s accesses.now owners.now m net) }
{
    picks_accesses_to();
    let part = register_of(alloc, core, plan, m, accesses, owners, start)?;
    let ends = emit_register(alloc, builder, &part)?;
    Ok(ends.nets[0])
}

/// Emits the readers of an argument, whose word is on its port.
fn emit_argument(
    alloc: Global,
    builder: &mut Builder,
    core: &Core,
    accesses: &[AccessNets],
    port: NetId,
    m: u32,
) -> Result<(), NoMemory>
    requires fits { (plan : PlainPlan) × (owners : OwnerNets) × (start : ℕ) × ScalarFits builder.old (plain_core core.now) plan accesses.now owners port start m }
    requires argument { kind_of (plain_core core.now) m ≡ ArgIn }
    ensures fills { OnOk result (Fills builder.old builder.new (answers_to m accesses.now)) }
    ensures runs { OnOk result ((s : Signals) → RunsOn s builder.new.cells → IsFollowed s accesses.now m port) }
{
    let reads = reads_to(alloc, m, accesses)?;
    let one = one(builder)?;
    emit_followers(builder, memory(core, m).ty.width(), &reads, port, one)?;
    Ok(())
}

/// Emits a memory that is a register, an argument or an output, a register in as many copies as a plan has. The net has the word of copy
/// 0; that of an argument is its port. Each access that is to be answered is a cycle later. `start` is 1 in the cycle in which a run
/// begins.
pub fn emit_scalar(
    alloc: Global,
    builder: &mut Builder,
    core: &Core,
    plan: &Plan,
    accesses: &[AccessNets],
    owners: &OwnerNets,
    port: NetId,
    start: NetId,
    m: u32,
) -> Result<NetId, NoMemory>
    requires fits { ScalarFits builder.old (plain_core core.now) (plain_plan plan.now) accesses.now owners.now port start m }
    ensures fills { OnOk result (Fills builder.old builder.new (answers_to m accesses.now)) }
    ensures net { IfOk result (λ net. HasNet builder.new net (width_of (mem (plain_core core.now) m).ty)) }
    ensures runs { IfOk result (λ net. (s : Signals) → RunsOn s builder.new.cells → RunsScalar (plain_core core.now) (plain_plan plan.now) s accesses.now owners.now port m net) }
{
    match memory(core, m).kind {
        Kind::ArgIn => {
            emit_argument(alloc, builder, core, accesses, port, m)?;
            Ok(port)
        }
        _ => {
            let net = emit_word(alloc, builder, core, plan, accesses, owners, start, m)?;
            Ok(net)
        }
    }
}
