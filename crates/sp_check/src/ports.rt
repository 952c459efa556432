//! The ports of a program: the arguments, outputs and DRAMs among its memories.

ghost use Rattle.std.specs.Prelude.{◌≡◌, ◌∷◌, [], map, IfOk, OnOk};
ghost use Rattle.sp_tree.specs.Invariant.{port_of, ports_of};
ghost use Rattle.sp_tree.specs.Plain.{plain_mem};
ghost use Rattle.sp_words.specs.Ports.{plain_port, plain_ports};
ghost use Rattle.sp_check.specs.Lists.{joined_ports};

use sp_tree::MemDecl;
use sp_words::{Kind, PortDecl, Ports};
use std::alloc::{AllocError, Global};

/// The port that a memory is.
fn port_of(alloc: Global, mem: &MemDecl) -> Result<PortDecl, AllocError>
    ensures { IfOk result (λ port. plain_port port ≡ port_of (plain_mem mem.now)) }
{
    Ok(PortDecl {
        name: String::from_str(alloc, &mem.name)?,
        ty: mem.ty,
        dims: mem.dims.to_vec(alloc)?,
    })
}

/// One more port, if the memory is one.
fn add_port(alloc: Global, ports: &mut Ports, mem: &MemDecl) -> Result<(), AllocError>
    ensures { OnOk result (plain_ports ports.new ≡ joined_ports (plain_ports ports.old) (ports_of (plain_mem mem.now ∷ []))) }
{
    match mem.kind {
        Kind::ArgIn => ports.args.push(port_of(alloc, mem)?)?,
        Kind::ArgOut => ports.outs.push(port_of(alloc, mem)?)?,
        Kind::Dram => ports.drams.push(port_of(alloc, mem)?)?,
        _ => {}
    }
    Ok(())
}

/// The ports among memories, each list in the order of the memories.
pub(crate) fn ports_of(alloc: Global, mems: &[MemDecl]) -> Result<Ports, AllocError>
    ensures { IfOk result (λ ports. plain_ports ports ≡ ports_of (map plain_mem mems.now)) }
{
    let mut ports = Ports {
        args: Vec::new(alloc),
        outs: Vec::new(alloc),
        drams: Vec::new(alloc),
    };
    for mem in mems {
        add_port(alloc, &mut ports, mem)?;
    }
    Ok(ports)
}
