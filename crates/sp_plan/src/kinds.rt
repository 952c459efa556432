//! Whether parts of a plan are of the kind of what they are of.

ghost use Rattle.std.specs.Prelude.{◌≡◌, ◌&&◌, length};
ghost use Rattle.sp_bank.specs.Banking.{Banking};
ghost use Rattle.sp_core.specs.CoreParts.{plain_core};
ghost use Rattle.sp_core.specs.Declarations.{mem};
ghost use Rattle.sp_core.specs.Plain.{plain_mem, plain_node};
ghost use Rattle.sp_plan.specs.Plain.{plain_node_plan};
ghost use Rattle.sp_plan.specs.Validity.{has_rank, has_slots, fits_scheme, is_kind_of};

use crate::plan::{MemPlan, NodePlan};
use crate::site::is_stream;
use sp_core::{Core, Node};
use sp_words::Kind;

/// Whether a memory of a kind, with so many dimensions, is banked by so many.
fn has_rank(kind: Kind, dims: usize, rank: usize) -> bool
    ensures { result ≡ has_rank kind dims rank }
{
    match kind {
        Kind::Sram => rank == dims,
        Kind::LineBuf => rank == 1,
        _ => false,
    }
}

/// Whether there are as many slots and chains as stages, and none of a `Stream` block.
fn has_slots(stream: bool, stages: usize, slots: usize, chains: usize) -> bool
    ensures { result ≡ has_slots stream stages slots chains }
{
    if stream {
        slots == 0 && chains == 0
    } else {
        slots == stages && chains == stages
    }
}

/// Whether the plan of a node is of its kind, with a time for each operation, or a slot and a chain for each stage.
pub fn is_of_kind(node: &Node, plan: &NodePlan) -> bool
    ensures { result ≡ is_kind_of (plain_node node.now) (plain_node_plan plan.now) }
{
    match node {
        Node::Inner { ops, .. } => match plan {
            NodePlan::Inner { times, .. } => times.len() == ops.len(),
            _ => false,
        },
        Node::Outer { style, stages, .. } => match plan {
            NodePlan::Outer { slots, chains } => {
                has_slots(is_stream(*style), stages.len(), slots.len(), chains.len())
            }
            _ => false,
        },
        _ => match plan {
            NodePlan::Other => true,
            _ => false,
        },
    }
}

/// Whether a scheme, if there is one, is of a memory with banks and of its rank.
pub fn fits_scheme(core: &Core, m: u32, plan: &MemPlan) -> bool
    ensures { result ≡ fits_scheme (plain_core core.now) m plan.now.scheme }
{
    match &plan.scheme {
        None => true,
        Some(scheme) => match core.mems().get(m as usize) {
            Some(mem) => has_rank(mem.kind, mem.dims.len(), scheme.alpha.len()),
            None => false,
        },
    }
}
