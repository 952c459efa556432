//! The accesses of a core's tree.
ghost use Rattle.std.specs.Prelude.{◌≡◌, All, IfOk};
ghost use Rattle.sp_netlist.specs.Draft.{Draft};
ghost use Rattle.sp_core.specs.CoreParts.{plain_core};
ghost use Rattle.sp_core.specs.Plain.{plain_node};
ghost use Rattle.sp_mem.specs.Fits.{CopyFits};
ghost use Rattle.sp_op_nets.specs.Acted.{answers_in};
ghost use Rattle.sp_access_nets.specs.declared.access.AccessNets.{AccessNets};
ghost use Rattle.sp_access_nets.specs.Accesses.{copy_in};
ghost use Rattle.sp_access_nets.specs.Laws.{answer_nets};
ghost use Rattle.sp_tree_handed.specs.Lists.{lists_in};
ghost use Rattle.sp_tree_handed.specs.Standing.{AccessStands, AreListsStanding, BoundsReadArguments};
ghost use Rattle.sp_tree_accesses.specs.Accesses.{AreAllAccesses};
ghost use Rattle.sp_tree_accesses.specs.Laws.{IsOfCore};
ghost use Rattle.sp_tree_accesses.specs.Queued.{QueuedStands};

use crate::walk::{Walk, add_node};
use sp_access_nets::{AccessNets, each_is_of_operation, reserved_are_answers, rules_name_memories};
use sp_core::Core;
use sp_netlist::{NetId, NoMemory};
use sp_op_nets::ActedList;
use std::alloc::Global;

/// The accesses of the lists of a core's tree, one list behind the other, by what the tree's circuit hands on, in the order of the
/// lists' numbers. `copies` has by the number of each operation the net with the number of the copy on which it acts: without one that is
/// copy 0.
pub fn tree_accesses(
    alloc: Global,
    core: &Core,
    acted: &[ActedList],
    copies: &[Option<NetId>],
) -> Result<Vec<AccessNets>, NoMemory>
    ensures accesses { IfOk result (λ accesses. (d : Draft) → AreListsStanding d (plain_core core.now) (lists_in (plain_node core.now.root) 0) acted.now → AreAllAccesses (copy_in copies.now) (lists_in (plain_node core.now.root) 0) acted.now accesses.items) }
    ensures of_core { IfOk result (λ accesses. (d : Draft) → AreListsStanding d (plain_core core.now) (lists_in (plain_node core.now.root) 0) acted.now → All (IsOfCore (plain_core core.now) (copy_in copies.now)) accesses.items) }
    ensures copied { IfOk result (λ accesses. (d : Draft) → AreListsStanding d (plain_core core.now) (lists_in (plain_node core.now.root) 0) acted.now → All (CopyFits d) copies.now → All (λ (a : AccessNets). CopyFits d a.copy) accesses.items) }
    ensures answers { IfOk result (λ accesses. (d : Draft) → AreListsStanding d (plain_core core.now) (lists_in (plain_node core.now.root) 0) acted.now → answer_nets accesses.items ≡ answers_in acted.now) }
    ensures queued { IfOk result (λ accesses. (d : Draft) → AreListsStanding d (plain_core core.now) (lists_in (plain_node core.now.root) 0) acted.now → All (QueuedStands d (plain_core core.now)) accesses.items) }
    ensures stand { IfOk result (λ accesses. (d : Draft) → AreListsStanding d (plain_core core.now) (lists_in (plain_node core.now.root) 0) acted.now → BoundsReadArguments (plain_core core.now) (plain_node core.now.root) → All (AccessStands d (plain_core core.now)) accesses.items) }
{
    each_is_of_operation();
    reserved_are_answers();
    rules_name_memories();
    let root = core.root();
    let mut walk = Walk {
        accesses: Vec::new(alloc),
        at: 0,
    };
    add_node(alloc, &mut walk, root, acted, copies)?;
    Ok(walk.accesses)
}
