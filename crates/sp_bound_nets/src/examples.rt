//! A worked bound: twice a counter, and one more.
ghost use Rattle.std.specs.Prelude.{◌≡◌, [], IfOk, OnOk};
ghost use Rattle.sp_core.specs.ExampleForms.{op_at};
ghost use Rattle.sp_core.specs.Plain.{plain_op, plain_ops};
ghost use Rattle.sp_gates.specs.Grows.{Fills};
ghost use Rattle.sp_gates.specs.Nets.{HasNet};
ghost use Rattle.sp_op_nets.specs.Reserved.{Reserves};
ghost use Rattle.sp_words.specs.Types.{int_type};
ghost use Rattle.sp_bound_nets.specs.Example.{GivesOdd, HasCounter, odd_ops};

use crate::direct::emit_direct;
use sp_core::{Op, OpKind};
use sp_gates::one;
use sp_netlist::{Builder, NetId, NoMemory};
use sp_op_nets::AroundNets;
use sp_words::{BinOp, Ty};
use std::alloc::Global;

/// An operation on `Int`, without a memory and a mask.
fn int_op(kind: OpKind, args: Vec<u32>) -> Op
    ensures { plain_op result ≡ op_at int_type kind args.items }
{
    Op {
        kind,
        ty: Ty::int(),
        args,
        mem: None,
        mask: None,
    }
}

/// Twice the counter 0, and one more.
fn odd_list(alloc: Global) -> Result<Vec<Op>, NoMemory>
    ensures { IfOk result (λ ops. plain_ops ops.items ≡ odd_ops) }
{
    let counter = int_op(OpKind::Count(0, 0), Vec::new(alloc));
    let number_two = int_op(OpKind::Word(2), Vec::new(alloc));
    let twice = int_op(OpKind::Two(BinOp::Mul), vec![in alloc; 1, 0]?);
    let number_one = int_op(OpKind::Word(1), Vec::new(alloc));
    let sum = int_op(OpKind::Two(BinOp::Add), vec![in alloc; 2, 3]?);
    let ops = vec![in alloc; counter, number_two, twice, number_one, sum]?;
    Ok(ops)
}

/// The table of one counter around, which has one lane.
fn one_around(
    alloc: Global,
    builder: &mut Builder,
    value: NetId,
) -> Result<Vec<AroundNets>, NoMemory>
    requires { HasNet builder.old value 32 }
    ensures fills { OnOk result (Fills builder.old builder.new []) }
    ensures counter { IfOk result (λ table. HasCounter builder.new table.items value) }
{
    let mask = one(builder)?;
    let masks = vec![in alloc; mask]?;
    let counter = AroundNets {
        value,
        step: 1,
        masks,
    };
    let table = vec![in alloc; counter]?;
    Ok(table)
}

/// Emits the bound `2 * i + 1` of the counter i whose word stands on this net.
pub fn worked_bound(alloc: Global, builder: &mut Builder, value: NetId) -> Result<NetId, NoMemory>
    requires { HasNet builder.old value 32 }
    ensures reserves { OnOk result (Reserves builder.old builder.new []) }
    ensures net { IfOk result (λ net. HasNet builder.new net 32) }
    ensures odd { IfOk result (λ net. GivesOdd builder.new value net) }
{
    let around = one_around(alloc, builder, value)?;
    let ops = odd_list(alloc)?;
    let bound = emit_direct(alloc, builder, &ops, 0, &around)?;
    Ok(bound.net)
}
