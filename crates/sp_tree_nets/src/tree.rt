//! What an emitted tree gives.
ghost use Rattle.std.specs.Prelude.{◌≡◌, ◌++◌, OnOk};

use sp_netlist::{Child, NoMemory};
use sp_op_nets::ActedList;
use sp_tree_handed::{TreeMove, TreeOwners};

/// The start and the end of a tree of nodes, the operations of its lists, in the order of their numbers, for the memories that
/// they name, what the owners in it do to their memories, and the transfers in it.
#[derive(Debug, Drop)]
pub struct TreeNets {
    pub child: Child,
    pub acted: Vec<ActedList>,
    pub owners: TreeOwners,
    pub moves: Vec<TreeMove>,
}

/// Further lists, behind those before.
pub(crate) fn append(all: &mut Vec<ActedList>, more: Vec<ActedList>) -> Result<(), NoMemory>
    ensures { OnOk result (all.new.items ≡ all.old.items ++ more.items) }
{
    for list in more {
        all.push(list)?;
    }
    Ok(())
}
