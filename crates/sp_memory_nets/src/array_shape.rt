//! A memory of a core as one in banks.
ghost use Rattle.std.specs.Prelude.{◌≡◌, ◌<◌, length, IfOk, OnOk};
ghost use Rattle.sp_core.specs.CoreParts.{plain_core};
ghost use Rattle.sp_core.specs.Declarations.{mem, kind_of, dims};
ghost use Rattle.sp_core.specs.Invariant.{IsCore};
ghost use Rattle.sp_core.specs.Plain.{plain_mem};
ghost use Rattle.sp_plan.specs.Plain.{plain_mem_plan, plain_plan};
ghost use Rattle.sp_plan.specs.PlainPlan.{mem_plan};
ghost use Rattle.sp_memory_nets.specs.ArrayArrays.{HasShapeOf};

use sp_bank_words::layout_of;
use sp_banked::Banked;
use sp_core::{Core, CoreMem};
use sp_mem::Touch;
use sp_netlist::{NetId, NoMemory};
use sp_plan::{MemPlan, Plan};
use std::alloc::Global;

/// The memory of a number.
pub(crate) fn memory(core: &Core, m: u32) -> &CoreMem
    requires { m < length (plain_core core.now).mems }
    ensures memory { plain_mem result.now ≡ mem (plain_core core.now) m }
    ensures kind { result.now.kind ≡ kind_of (plain_core core.now) m }
    ensures dims { result.now.dims.items ≡ dims (plain_core core.now) m }
    ensures core { IsCore (plain_core core.now) }
{
    &core.mems()[m as usize]
}

/// What a plan has for the memory of a number.
fn planned(plan: &Plan, m: u32) -> &MemPlan
    requires { m < length (plain_plan plan.now).mems }
    ensures { plain_mem_plan result.now ≡ mem_plan (plain_plan plan.now) m }
{
    &plan.mems[m as usize]
}

/// A memory in banks by a plan, from the number of a bank on, with these accesses.
pub(crate) fn banked(
    alloc: Global,
    core: &Core,
    plan: &Plan,
    m: u32,
    start: NetId,
    bank: u64,
    writes: Vec<Touch>,
    reads: Vec<Touch>,
) -> Result<Banked, NoMemory>
    requires within { m < length (plain_core core.now).mems }
    requires planned { m < length (plain_plan plan.now).mems }
    ensures shape { IfOk result (HasShapeOf (plain_core core.now) (plain_plan plan.now) m) }
    ensures start { IfOk result (λ part. part.start ≡ start) }
    ensures bank { IfOk result (λ part. part.bank ≡ bank) }
    ensures writes { IfOk result (λ part. part.writes.items ≡ writes.items) }
    ensures reads { IfOk result (λ part. part.reads.items ≡ reads.items) }
{
    let mem = memory(core, m);
    let planned = planned(plan, m);
    let layout = layout_of(alloc, &planned.scheme, &mem.dims)?;
    Ok(Banked {
        start,
        bank,
        ty: mem.ty,
        layout,
        copies: planned.depth,
        duplicates: planned.duplicates,
        writes,
        reads,
    })
}
