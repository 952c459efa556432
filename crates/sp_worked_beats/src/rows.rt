//! Slots of one member each.
ghost use Rattle.std.specs.Prelude.{◌≡◌, [], ◌∷◌, None, IfOk};
ghost use Rattle.sp_worked_beats.specs.Rows.{AreTwo, IsAlone};

use sp_netlist::{Child, NoMemory};
use sp_sequence::{Chain, Member, Slot};
use std::alloc::Global;

/// A chain of one member.
fn chain_of(alloc: Global, child: Child) -> Result<Chain, NoMemory>
    ensures { IfOk result (λ chain. chain.members.items ≡ record { child = child; wanted = None } ∷ []) }
{
    let mut members = Vec::new(alloc);
    members.push(Member {
        child,
        wanted: None,
    })?;
    Ok(Chain { members })
}

/// A slot of one member.
fn slot_of(alloc: Global, child: Child) -> Result<Slot, NoMemory>
    ensures { IfOk result (λ slot. IsAlone slot child) }
{
    let chain = chain_of(alloc, child)?;
    let mut chains = Vec::new(alloc);
    chains.push(chain)?;
    Ok(Slot { chains })
}

/// Two slots of one member each.
pub(crate) fn slots_of(alloc: Global, a: Child, b: Child) -> Result<Vec<Slot>, NoMemory>
    ensures { IfOk result (λ slots. AreTwo slots.items a b) }
{
    let first = slot_of(alloc, a)?;
    let second = slot_of(alloc, b)?;
    let mut slots = Vec::new(alloc);
    slots.push(first)?;
    slots.push(second)?;
    Ok(slots)
}
