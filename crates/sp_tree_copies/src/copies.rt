//! The nets of copies of a whole core.
ghost use Rattle.std.specs.Prelude.{[], All, IfOk, OnOk};
ghost use Rattle.sp_netlist.specs.Signals.{Signals};
ghost use Rattle.sp_gates.specs.Grows.{Fills};
ghost use Rattle.sp_gates.specs.Runs.{RunsOn};
ghost use Rattle.sp_core.specs.CoreParts.{plain_core};
ghost use Rattle.sp_plan.specs.Plain.{plain_plan};
ghost use Rattle.sp_mem.specs.Fits.{CopyFits};
ghost use Rattle.sp_copy_nets.specs.Numbers.{StandNumbers};
ghost use Rattle.sp_tree_handed.specs.declared.owners.Keeping.{Keeping};
ghost use Rattle.sp_tree_handed.specs.declared.owners.Renewal.{Renewal};
ghost use Rattle.sp_tree_handed.specs.Standing.{HandedStand, OwnersStand};
ghost use Rattle.sp_tree_nets.specs.Whole.{HasTreePlan};
ghost use Rattle.sp_tree_copies.specs.Naming.{NamesCore};

use crate::numbers::emit_numbers;
use crate::walk::{Walk, walk_node};
use sp_copy_nets::no_number_table;
use sp_core::Core;
use sp_netlist::{Builder, NetId, NoMemory};
use sp_plan::Plan;
use sp_tree_handed::{OwnerNets, TreeOwners};
use std::alloc::Global;

/// By the number of each operation and each transfer the net of its memory's copy, and the owners with those of theirs; none where a memory is in copy 0.
#[derive(Debug, Drop)]
pub struct NamedCopies {
    pub names: Vec<Option<NetId>>,
    pub owners: OwnerNets,
}

/// Emits the numbers of copies of the memories that a core's loops own, behind the circuit of its tree, which hands on how its loops turn
/// and where its FSMs keep their states.
pub fn emit_copies(
    alloc: Global,
    builder: &mut Builder,
    core: &Core,
    plan: &Plan,
    handed: &TreeOwners,
) -> Result<NamedCopies, NoMemory>
    requires plan { HasTreePlan (plain_core core.now) (plain_plan plan.now) }
    requires handed { HandedStand builder.old (plain_core core.now) handed.now }
    ensures fills { OnOk result (Fills builder.old builder.new []) }
    ensures names { IfOk result (λ copies. StandNumbers builder.new copies.names.items) }
    ensures owners { IfOk result (λ copies. OwnersStand builder.new (plain_core core.now) copies.owners) }
    ensures renewed { IfOk result (λ copies. All (λ (r : Renewal). CopyFits builder.new r.copy) copies.owners.renewed.items) }
    ensures kept { IfOk result (λ copies. All (λ (k : Keeping). CopyFits builder.new k.copy) copies.owners.kept.items) }
    ensures named { IfOk result (λ copies. (s : Signals) → RunsOn s builder.new.cells → NamesCore (plain_core core.now) (plain_plan plan.now) s handed.now.turns.items handed.now.kept.items copies.names.items copies.owners.renewed.items copies.owners.kept.items) }
{
    let loops = emit_numbers(alloc, builder, plan, &handed.turns)?;
    let around = no_number_table(alloc, core.mems().len())?;
    let mut walk = Walk {
        names: Vec::new(alloc),
        renewed: Vec::new(alloc),
        kept: Vec::new(alloc),
        loops: 0,
        states: 0,
    };
    let root = core.root();
    let turns = &handed.turns;
    let kept = &handed.kept;
    walk_node(
        alloc, &mut walk, core, plan, root, 0, &around, turns, kept, &loops,
    )?;
    Ok(NamedCopies {
        names: walk.names,
        owners: OwnerNets {
            renewed: walk.renewed,
            kept: walk.kept,
        },
    })
}
