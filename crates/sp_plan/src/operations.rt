//! What operations are to the memories that they name, and how long they take.

ghost use Rattle.std.specs.Prelude.{◌≡◌, ◌≤◌, ◌&&◌};
ghost use Rattle.sp_core.specs.CoreParts.{plain_core};
ghost use Rattle.sp_core.specs.Declarations.{mem};
ghost use Rattle.sp_core.specs.Latency.{read_latency, operator_latency, latency_by, read_of, latency};
ghost use Rattle.sp_core.specs.Plain.{plain_op};
ghost use Rattle.sp_plan.specs.Orders.{change_gap};
ghost use Rattle.sp_plan.specs.Ports.{has_banks, is_change, is_one_port, is_one_mem, is_in_banks, share_port, is_serial};

use sp_bank::Scheme;
use sp_core::{Core, Op, OpKind};
use sp_words::{BinOp, Kind};

/// The kind of a memory; a register where there is none of that number.
pub fn kind(core: &Core, m: u32) -> Kind
    ensures { result ≡ (mem (plain_core core.now) m).kind }
{
    match core.mems().get(m as usize) {
        Some(mem) => mem.kind,
        None => Kind::Reg,
    }
}

/// Whether memories of a kind have banks.
pub fn has_banks(kind: Kind) -> bool
    ensures { result ≡ has_banks kind }
{
    match kind {
        Kind::Sram | Kind::LineBuf => true,
        _ => false,
    }
}

/// Whether an access changes its memory.
pub fn is_change(kind: OpKind) -> bool
    ensures { result ≡ is_change kind }
{
    match kind {
        OpKind::Write | OpKind::Enq | OpKind::Deq | OpKind::Reset => true,
        _ => false,
    }
}

/// The cycles of an operator.
fn operator_latency(op: BinOp) -> u32
    ensures cycles { result ≡ operator_latency op }
    ensures few { result ≤ 4 }
{
    match op {
        BinOp::Mul => 2,
        BinOp::Div | BinOp::Rem => 4,
        _ => 1,
    }
}

/// The cycles of a read.
fn read_latency(core: &Core, m: Option<u32>) -> u32
    ensures cycles { result ≡ read_of (plain_core core.now) m }
    ensures few { result ≤ 4 }
{
    match m {
        None => 1,
        Some(m) => match kind(core, m) {
            Kind::Sram | Kind::LineBuf => 2,
            _ => 1,
        },
    }
}

/// The cycles of an operation.
pub fn latency(core: &Core, op: &Op) -> u32
    ensures cycles { result ≡ latency (plain_core core.now) (plain_op op.now) }
    ensures few { result ≤ 4 }
{
    match op.kind {
        OpKind::Word(_) | OpKind::Count(_, _) | OpKind::Live(_, _, _) => 0,
        OpKind::Read => read_latency(core, op.mem),
        OpKind::Deq => 2,
        OpKind::Two(op) => operator_latency(op),
        _ => 1,
    }
}

/// Whether two accesses use one port of their memories.
fn is_one_port(a: OpKind, b: OpKind) -> bool
    ensures { result ≡ is_one_port a b }
{
    match a {
        OpKind::Read => match b {
            OpKind::Read => true,
            _ => false,
        },
        OpKind::Write => match b {
            OpKind::Write => true,
            _ => false,
        },
        _ => false,
    }
}

/// Whether two operations name one memory.
pub(crate) fn is_one_mem(a: Option<u32>, b: Option<u32>) -> bool
    ensures { result ≡ is_one_mem a b }
{
    match a {
        None => false,
        Some(m) => match b {
            None => false,
            Some(r) => m == r,
        },
    }
}

/// Whether a memory has banks.
fn is_in_banks(core: &Core, m: Option<u32>) -> bool
    ensures { result ≡ is_in_banks (plain_core core.now) m }
{
    match m {
        None => false,
        Some(m) => has_banks(kind(core, m)),
    }
}

/// Whether two accesses use one port of a memory with banks.
pub fn share_port(core: &Core, a: &Op, b: &Op) -> bool
    ensures { result ≡ share_port (plain_core core.now) (plain_op a.now) (plain_op b.now) }
{
    (is_one_port(a.kind, b.kind) && is_one_mem(a.mem, b.mem)) && is_in_banks(core, a.mem)
}

/// Whether a memory has no scheme.
pub fn is_serial(schemes: &[Option<Scheme>], m: Option<u32>) -> bool
    ensures { result ≡ is_serial schemes.now m }
{
    match m {
        None => true,
        Some(m) => match schemes.get(m as usize) {
            Some(Some(_)) => false,
            _ => true,
        },
    }
}
