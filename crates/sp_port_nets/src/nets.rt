//! The nets of arguments and outputs, by the numbers of their memories.
ghost use Rattle.std.specs.Prelude.{◌≡◌, if◌then◌else◌, length, map, slice_index, IfOk};
ghost use Rattle.sp_core.specs.CoreParts.{plain_core};
ghost use Rattle.sp_core.specs.Meaning.{is_arg, outs_of};
ghost use Rattle.sp_port_nets.specs.Nets.{first_net, other_nets, nets_of_arguments};

use sp_core::Core;
use sp_netlist::{NetId, NoMemory};
use sp_words::Kind;
use std::alloc::Global;

/// The net of the next memory, which is of this kind, and the ports that are left after it.
fn next_net(kind: Kind, ports: &[NetId]) -> (NetId, &[NetId])
    ensures net { result.0 ≡ (if is_arg kind then first_net ports.now else 0) }
    ensures others { result.1.now ≡ (if is_arg kind then other_nets ports.now else ports.now) }
{
    match (kind, ports) {
        (Kind::ArgIn, [port, rest @ ..]) => (*port, rest),
        _ => (NetId::new(0), ports),
    }
}

/// The net of each memory of a core, by its number: of an argument that of its port, and net 0 of any other. The arguments'
/// ports come in order.
pub fn argument_nets(alloc: Global, core: &Core, ports: &[NetId]) -> Result<Vec<NetId>, NoMemory>
    ensures each { IfOk result (λ nets. length nets.items ≡ length (plain_core core.now).mems) }
    ensures nets { IfOk result (λ nets. nets.items ≡ nets_of_arguments (plain_core core.now).mems ports.now) }
{
    let mut nets = Vec::new(alloc);
    let mut left = ports;
    for mem in core.mems() {
        let (net, rest) = next_net(mem.kind, left);
        nets.push(net)?;
        left = rest;
    }
    Ok(nets)
}

/// The net of a memory's word, and net 0 where there is none.
fn word_net(words: &[NetId], m: usize) -> NetId
    ensures { result ≡ slice_index words.now m }
{
    match words.get(m) {
        Some(net) => *net,
        None => NetId::new(0),
    }
}

/// The nets of a core's outputs, in order, where `words` has the nets of the words of its memories by their numbers.
pub fn output_nets(alloc: Global, core: &Core, words: &[NetId]) -> Result<Vec<NetId>, NoMemory>
    ensures { IfOk result (λ nets. nets.items ≡ map (slice_index words.now) (outs_of (plain_core core.now))) }
{
    let mut nets = Vec::new(alloc);
    for (m, mem) in core.mems().iter().enumerate() {
        if matches!(mem.kind, Kind::ArgOut) {
            nets.push(word_net(words, m))?;
        }
    }
    Ok(nets)
}
