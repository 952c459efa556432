//! A core whose lanes stand one after the other.

ghost use Rattle.std.specs.Prelude.{◌≡◌, ℕ, Some, Err, map, IfOk};
ghost use Rattle.sp_words.specs.Ports.{plain_port, plain_ports};
ghost use Rattle.sp_core.specs.CoreParts.{plain_core};
ghost use Rattle.sp_core.specs.Invariant.{IsCore, wrong_place};
ghost use Rattle.sp_core.specs.Plain.{plain_mem, plain_node};
ghost use Rattle.sp_lanes.specs.Unrolled.{unrolled};

use crate::NoMemory;
use crate::memories::mems_at;
use crate::nodes::node_in;
use crate::order::memory_order;
use crate::within::outside;
use sp_core::{Core, CoreError, CoreMem, Node, wrong_cores_are_shown};
use sp_words::{PortDecl, Ports};
use std::alloc::Global;

/// The memories and the tree of a core in lanes.
#[derive(Debug, Drop)]
pub struct Unrolled {
    pub mems: Vec<CoreMem>,
    pub root: Node,
}

/// The memories and the tree of a core whose lanes stand one after the other, each lane with memories of its own. Where a
/// loop has several lanes, their bodies stand one after the other, each access under a bit that tells whether the lane has
/// an iteration, and a combination stands once, after all of them: its words are joined in a balanced tree where the
/// operator gives the same in any order, and meet the accumulator in order where it doesn't. The ports are those of the
/// core.
pub fn in_lanes(alloc: Global, core: &Core) -> Result<Unrolled, NoMemory>
    ensures lanes { IfOk result (λ made. record { mems = map plain_mem made.mems.items; ports = core.now.ports; root = plain_node made.root } ≡ unrolled (plain_core core.now)) }
{
    let all = core.mems();
    let tree = core.root();
    let order = memory_order(alloc, all, tree)?;
    let around = outside(alloc);
    let root = node_in(alloc, tree, &order, &around)?;
    let mems = mems_at(alloc, all, &order)?;
    Ok(Unrolled { mems, root })
}

fn copied_port(alloc: Global, port: &PortDecl) -> Result<PortDecl, NoMemory>
    ensures { IfOk result (λ made. plain_port made ≡ plain_port port.now) }
{
    Ok(PortDecl {
        name: String::from_str(alloc, &port.name)?,
        ty: port.ty,
        dims: Vec::from_slice(alloc, &port.dims)?,
    })
}

fn copied_list(alloc: Global, ports: &[PortDecl]) -> Result<Vec<PortDecl>, NoMemory>
    ensures { IfOk result (λ made. map plain_port made.items ≡ map plain_port ports.now) }
{
    let mut made = Vec::new(alloc);
    for port in ports {
        made.push(copied_port(alloc, port)?)?;
    }
    Ok(made)
}

pub fn copied_ports(alloc: Global, ports: &Ports) -> Result<Ports, NoMemory>
    ensures { IfOk result (λ made. plain_ports made ≡ plain_ports ports.now) }
{
    Ok(Ports {
        args: copied_list(alloc, &ports.args)?,
        outs: copied_list(alloc, &ports.outs)?,
        drams: copied_list(alloc, &ports.drams)?,
    })
}

/// The core whose lanes stand one after the other. `Shape` names the first node in preorder at which that is no core; the
/// core of a program always has one.
pub fn unroll(alloc: Global, core: &Core) -> Result<Core, CoreError>
    ensures lanes { IfOk result (λ made. plain_core made ≡ unrolled (plain_core core.now)) }
    ensures shape { (node : ℕ) → result ≡ Err (CoreError.Shape node) → wrong_place (unrolled (plain_core core.now)) ≡ Some node }
    ensures none { (node : ℕ) → result ≡ Err (CoreError.Shape node) → ¬ IsCore (unrolled (plain_core core.now)) }
{
    wrong_cores_are_shown();
    let made = in_lanes(alloc, core)?;
    let ports = copied_ports(alloc, core.ports())?;
    Core::new(alloc, made.mems, ports, made.root)
}
