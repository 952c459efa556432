//! Which memories give one word as long as a list of operations runs.
ghost use Rattle.std.specs.Prelude.{◌≡◌};
ghost use Rattle.std.specs.List.{list_any};
ghost use Rattle.sp_core.specs.Plain.{plain_op, plain_ops};
ghost use Rattle.sp_patterns.specs.Forms.{changes, is_steady, is_change, is_memory};

use sp_core::{Op, OpKind};
use sp_words::Kind;

/// Whether a memory is one that a list reads and doesn't change: an argument, or a register.
pub fn is_steady(kind: Kind, ops: &[Op], m: u32) -> bool
    ensures { result ≡ is_steady kind (plain_ops ops.now) m }
{
    match kind {
        Kind::ArgIn => true,
        Kind::Reg => !is_changed(ops, m),
        Kind::Sram => false,
        Kind::Fifo => false,
        Kind::LineBuf => false,
        Kind::Dram => false,
        Kind::ArgOut => false,
    }
}

fn is_changed(ops: &[Op], m: u32) -> bool
    ensures { result ≡ list_any (changes m) (plain_ops ops.now) }
{
    let [op, rest @ ..] = ops else {
        return false;
    };
    changes(m, op) || is_changed(rest, m)
}

fn changes(m: u32, op: &Op) -> bool
    ensures { result ≡ changes m (plain_op op.now) }
{
    is_change(op.kind) && is_memory(op.mem, m)
}

fn is_change(kind: OpKind) -> bool
    ensures { result ≡ is_change kind }
{
    match kind {
        OpKind::Write => true,
        OpKind::Reset => true,
        OpKind::Word(_) => false,
        OpKind::Count(_, _) => false,
        OpKind::Live(_, _, _) => false,
        OpKind::Read => false,
        OpKind::Enq => false,
        OpKind::Deq => false,
        OpKind::One(_) => false,
        OpKind::Two(_) => false,
        OpKind::Shift(_, _) => false,
        OpKind::Mux => false,
        OpKind::Cast(_) => false,
    }
}

fn is_memory(mem: Option<u32>, m: u32) -> bool
    ensures { result ≡ is_memory mem m }
{
    match mem {
        Some(n) => n == m,
        None => false,
    }
}
