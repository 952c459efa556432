//! Whether memories and ports keep their rules.

ghost use Rattle.std.specs.Prelude.{◌≡◌, ◌≤◌, ◌==◌, ◌&&◌, not, if◌then◌else◌, map, filter, length, min};
ghost use Rattle.std.specs.List.{list_all, list_any};
ghost use Rattle.std.specs.Str.{bytes_eq};
ghost use Rattle.sp_words.specs.Interface.{word_count};
ghost use Rattle.sp_words.specs.Ports.{plain_port, plain_ports};
ghost use Rattle.sp_core.specs.Meaning.{is_arg, is_out};
ghost use Rattle.sp_core.specs.MemoryRules.{has_rank, has_start, has_words, is_mem_right, is_dram_right, is_port_name, are_port_names, names_of, are_ports_of, are_memories_right, are_ports_right};
ghost use Rattle.sp_core.specs.PartsPlain.{core_of};
ghost use Rattle.sp_core.specs.Plain.{plain_mem};
ghost use Rattle.sp_core.specs.Typed.{is_type};

use crate::memory::CoreMem;
use crate::operation_rules::is_word;
use crate::parts::Parts;
use crate::typed::is_type;
use sp_words::{Kind, PortDecl, Ports, Ty, is_name, is_reserved};

/// Whether a kind of memory has this many dimensions.
fn has_rank(kind: Kind, n: usize) -> bool
    ensures { result ≡ has_rank kind n }
{
    match kind {
        Kind::Reg | Kind::ArgIn | Kind::ArgOut => n == 0,
        Kind::Sram => 1 <= n && n <= 3,
        Kind::Fifo => n == 1,
        Kind::LineBuf => n == 2,
        Kind::Dram => false,
    }
}

/// Whether a memory of this kind may begin with this.
fn has_start(kind: Kind, ty: Ty, start: Option<u64>) -> bool
    ensures { result ≡ has_start kind ty start }
{
    match start {
        None => true,
        Some(word) => match kind {
            Kind::Reg => is_word(word, ty.width()),
            _ => false,
        },
    }
}

/// How many words there are, or the greatest number where there are more.
fn count_words(dims: &[u32]) -> u64
    requires { length dims.now ≤ 3 }
    ensures { result ≡ min (word_count dims.now) 18446744073709551615 }
{
    match dims {
        [] => 1,
        [a] => *a as u64,
        [a, b] => (*a as u64).saturating_mul(*b as u64),
        [a, b, c] => (*a as u64).saturating_mul((*b as u64).saturating_mul(*c as u64)),
        _ => unreachable!(),
    }
}

fn has_words(most: u64, dims: &[u32]) -> bool
    requires few { length dims.now ≤ 3 }
    requires room { most ≤ 67108864 }
    ensures { result ≡ has_words most dims.now }
{
    let count = count_words(dims);
    1 <= count && count <= most
}

fn is_mem_right(mem: &CoreMem) -> bool
    ensures { result ≡ is_mem_right (plain_mem mem.now) }
{
    (has_rank(mem.kind, mem.dims.len()) && has_start(mem.kind, mem.ty, mem.start))
        && has_words(4_194_304, &mem.dims)
}

fn is_dram_right(dram: &PortDecl) -> bool
    ensures { result ≡ is_dram_right (plain_port dram.now) }
{
    (1 <= dram.dims.len() && dram.dims.len() <= 3) && has_words(67_108_864, &dram.dims)
}

fn are_mems_right(mems: &[CoreMem]) -> bool
    ensures { result ≡ list_all is_mem_right (map plain_mem mems.now) }
{
    for mem in mems {
        if !is_mem_right(mem) {
            return false;
        }
    }
    true
}

fn are_drams_right(drams: &[PortDecl]) -> bool
    ensures { result ≡ list_all is_dram_right (map plain_port drams.now) }
{
    for dram in drams {
        if !is_dram_right(dram) {
            return false;
        }
    }
    true
}

/// Whether memories and DRAMs keep their rules.
pub(crate) fn are_memories_right(parts: &Parts) -> bool
    ensures { result ≡ are_memories_right (core_of parts.now) }
{
    are_mems_right(&parts.mems) && are_drams_right(&parts.ports.drams)
}

fn is_port_name(name: &str) -> bool
    ensures { result ≡ is_port_name name.now }
{
    is_name(name) && !is_reserved(name)
}

fn is_named(ports: &[PortDecl], name: &str) -> bool
    ensures { result ≡ list_any (λ other. bytes_eq name.now other) (names_of (map plain_port ports.now)) }
{
    for port in ports {
        if name == port.name.as_str() {
            return true;
        }
    }
    false
}

/// Whether a port has a name that may be its own, and none of the others has.
fn is_fresh(port: &PortDecl, rest: &[PortDecl]) -> bool
    ensures { result ≡ (is_port_name (plain_port port.now).name && not (list_any (λ other. bytes_eq (plain_port port.now).name other) (names_of (map plain_port rest.now)))) }
{
    is_port_name(port.name.as_str()) && !is_named(rest, port.name.as_str())
}

/// Whether the names of ports may be theirs, and differ.
fn are_port_names(ports: &[PortDecl]) -> bool
    ensures { result ≡ are_port_names (names_of (map plain_port ports.now)) }
{
    let mut left = ports;
    while let Some((port, rest)) = left.split_first() {
        if !is_fresh(port, rest) {
            return false;
        }
        left = rest;
    }
    true
}

/// Whether a memory is an argument, or an output.
fn is_port_of(outs: bool, kind: Kind) -> bool
    ensures { result ≡ (if outs then is_out kind else is_arg kind) }
{
    match kind {
        Kind::ArgIn => !outs,
        Kind::ArgOut => outs,
        _ => false,
    }
}

/// Whether a port has the name and the type of a memory, and no dimension.
fn is_port(port: &PortDecl, mem: &CoreMem) -> bool
    ensures { result ≡ (bytes_eq (plain_port port.now).name (plain_mem mem.now).name && (is_type (plain_port port.now).ty (plain_mem mem.now).ty && (length (plain_port port.now).dims == 0))) }
{
    port.name.as_str() == mem.name.as_str() && (is_type(port.ty, mem.ty) && port.dims.is_empty())
}

/// Whether the ports are those memories, in order.
fn are_ports_of(ports: &[PortDecl], mems: &[CoreMem], outs: bool) -> bool
    ensures { result ≡ are_ports_of (map plain_port ports.now) (filter (λ m. if outs then is_out m.kind else is_arg m.kind) (map plain_mem mems.now)) }
{
    let mut at = 0;
    for mem in mems {
        if is_port_of(outs, mem.kind) {
            if at >= ports.len() || !is_port(&ports[at], mem) {
                return false;
            }
            at += 1;
        }
    }
    at == ports.len()
}

/// Whether ports have names that may be theirs.
fn have_names(ports: &Ports) -> bool
    ensures { result ≡ (are_port_names (names_of (plain_ports ports.now).args) && (are_port_names (names_of (plain_ports ports.now).outs) && are_port_names (names_of (plain_ports ports.now).drams))) }
{
    are_port_names(&ports.args) && (are_port_names(&ports.outs) && are_port_names(&ports.drams))
}

/// Whether arguments are the memories that are such.
fn are_args(parts: &Parts) -> bool
    ensures { result ≡ are_ports_of (core_of parts.now).ports.args (filter (λ m. is_arg m.kind) (core_of parts.now).mems) }
{
    are_ports_of(&parts.ports.args, &parts.mems, false)
}

/// Whether outputs are.
fn are_outs(parts: &Parts) -> bool
    ensures { result ≡ are_ports_of (core_of parts.now).ports.outs (filter (λ m. is_out m.kind) (core_of parts.now).mems) }
{
    are_ports_of(&parts.ports.outs, &parts.mems, true)
}

/// Whether ports keep their rules.
pub(crate) fn are_ports_right(parts: &Parts) -> bool
    ensures { result ≡ are_ports_right (core_of parts.now) }
{
    have_names(&parts.ports) && (are_args(parts) && are_outs(parts))
}
