//! A worked frame, whose contract follows from those of the calls alone.
ghost use Rattle.std.specs.Prelude.{◌≡◌, ℕ, ◌≤◌, ◌∷◌, [], codes, map, slice_index, IfOk};
ghost use Rattle.sp_words.specs.Ports.{plain_port};
ghost use Rattle.sp_netlist.specs.Cycle.{done_in, Ends};
ghost use Rattle.sp_netlist.specs.Ports.{ports_of};
ghost use Rattle.sp_netlist.specs.Signals.{Setting};
ghost use Rattle.sp_frames.specs.Example.{int_port};

use crate::closing::close_frame;
use crate::inputs::add_inputs;
use crate::laws::{frame_laws, frames_end, port_laws};
use sp_gates::{hold, one};
use sp_netlist::{Builder, Netlist, NoMemory, one_run};
use sp_words::{PortDecl, Ty};
use std::alloc::Global;

/// One port of `Int`.
fn one_port(alloc: Global, name: &str) -> Result<Vec<PortDecl>, NoMemory>
    ensures { IfOk result (λ ports. map plain_port ports.items ≡ int_port name.now ∷ []) }
{
    let port = PortDecl {
        name: String::from_str(alloc, name)?,
        ty: Ty::int(),
        dims: Vec::new(alloc),
    };
    let mut ports = Vec::new(alloc);
    ports.push(port)?;
    Ok(ports)
}

fn argument(alloc: Global) -> Result<Vec<PortDecl>, NoMemory>
    ensures { IfOk result (λ ports. map plain_port ports.items ≡ int_port (codes "x") ∷ []) }
{
    one_port(alloc, "x")
}

fn output(alloc: Global) -> Result<Vec<PortDecl>, NoMemory>
    ensures { IfOk result (λ ports. map plain_port ports.items ≡ int_port (codes "y") ∷ []) }
{
    one_port(alloc, "y")
}

/// The argument `x` is the output `y`, and the end is a register that is 0 in the first cycle and 1 from then on.
pub fn worked_frame(alloc: Global) -> Result<Netlist, NoMemory>
    ensures ports { IfOk result (λ netlist. ports_of netlist ≡ record { args = int_port (codes "x") ∷ []; outs = int_port (codes "y") ∷ []; drams = [] }) }
    ensures ends { IfOk result (λ netlist. (g : Setting) (last : ℕ) → g.cells ≡ netlist → 1 ≤ last → Ends g last (done_in 1 (slice_index g.args 0 ∷ []) [])) }
{
    port_laws();
    frame_laws();
    frames_end();
    one_run();
    let args = argument(alloc)?;
    let outs = output(alloc)?;
    let mut builder = Builder::new(alloc);
    let nets = add_inputs(alloc, &mut builder, &args)?;
    let one = one(&mut builder)?;
    let done = hold(&mut builder, 1, 0, one, one)?;
    let netlist = close_frame(alloc, builder, &outs, &nets, done)?;
    Ok(netlist)
}
