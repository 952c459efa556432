//! The net of one operation, and those of a list.
ghost use Rattle.std.specs.Prelude.{◌≡◌, ℕ, ◌*◌, ◌-◌, ◌%◌, ◌^◌, ◌<◌, ◌≤◌, [], length, slice_index, slice_index_or, IfOk, OnOk};
ghost use Rattle.sp_words.specs.Types.{int_type};
ghost use Rattle.sp_words.specs.Words.{word_add};
ghost use Rattle.sp_netlist.specs.Signals.{Signals};
ghost use Rattle.sp_gates.specs.Grows.{Fills};
ghost use Rattle.sp_gates.specs.Nets.{HasNet};
ghost use Rattle.sp_gates.specs.Runs.{RunsOn};
ghost use Rattle.sp_gates.specs.Tested.{is_on};
ghost use Rattle.sp_core.specs.Plain.{plain_op, plain_ops};
ghost use Rattle.sp_core.specs.Scope.{is_some_up_to};
ghost use Rattle.sp_op_nets.specs.Nets.{IsNetOf, AreNetsOf};
ghost use Rattle.sp_op_nets.specs.Reserved.{Reserves, reserved_by, reserved_of};
ghost use Rattle.sp_op_nets.specs.Table.{nets_at, IsCounterAt, StandsAt};

use crate::table::AroundNets;
use sp_circuit_ops::WordNet;
use sp_core::{Op, OpKind};
use sp_gates::{equals, reserve};
use sp_lane_nets::{lane_word, some_live};
use sp_netlist::{Builder, NetId, NoMemory};
use sp_words::Ty;
use std::alloc::Global;

/// A net with the word of a counter in a lane.
fn count_net(
    builder: &mut Builder,
    around: &[AroundNets],
    counter: u32,
    lane: u32,
) -> Result<NetId, NoMemory>
    requires { IsCounterAt builder.old around.now counter lane }
    ensures fills { OnOk result (Fills builder.old builder.new []) }
    ensures net { IfOk result (λ net. HasNet builder.new net 32) }
    ensures word { IfOk result (λ net. (s : Signals) → RunsOn s builder.new.cells → (t : ℕ) → s.net t net ≡ word_add int_type (s.net t (nets_at around.now counter).value) ((lane * (nets_at around.now counter).step) % 2 ^ 32)) }
{
    let nets = &around[counter as usize];
    let more = u64::from(lane) * u64::from(nets.step);
    let net = lane_word(builder, nets.value, more)?;
    Ok(net)
}

/// A net that is 1 where some of the lanes have an iteration, and else 0.
fn live_net(
    builder: &mut Builder,
    around: &[AroundNets],
    counter: u32,
    first: u32,
    last: u32,
) -> Result<NetId, NoMemory>
    requires order { first ≤ last }
    requires stands { IsCounterAt builder.old around.now counter last }
    ensures fills { OnOk result (Fills builder.old builder.new []) }
    ensures net { IfOk result (λ net. HasNet builder.new net 1) }
    ensures bit { IfOk result (λ net. (s : Signals) → RunsOn s builder.new.cells → (t : ℕ) → s.net t net < 2) }
    ensures on { IfOk result (λ net. (s : Signals) → RunsOn s builder.new.cells → (t : ℕ) → is_on s net t ≡ is_some_up_to (λ l. is_on s (slice_index (nets_at around.now counter).masks l) t) first (last - first)) }
{
    let nets = &around[counter as usize];
    let live = some_live(builder, &nets.masks, first as usize, last as usize)?;
    let net = equals(builder, Ty::Bit, live, 1)?;
    Ok(net)
}

/// The net of an operation, by the nets of the counters around, which are in the order of the counters' numbers. That of a read
/// or a take is reserved: what answers is to drive it, so many cycles after the access. Any other operation has net 0, which
/// says nothing.
pub fn op_net(
    builder: &mut Builder,
    op: &Op,
    around: &[AroundNets],
    after: u32,
) -> Result<WordNet, NoMemory>
    requires { StandsAt builder.old around.now op.now.kind }
    ensures net { IfOk result (λ n. IsNetOf builder.new around.now (plain_op op.now) after n) }
    ensures reserves { IfOk result (λ n. Reserves builder.old builder.new (reserved_by op.now.kind n.net)) }
{
    match op.kind {
        OpKind::Count(counter, lane) => {
            let net = count_net(builder, around, counter, lane)?;
            Ok(WordNet { net, after })
        }
        OpKind::Live(counter, first, last) => {
            let net = live_net(builder, around, counter, first, last)?;
            Ok(WordNet { net, after })
        }
        OpKind::Read | OpKind::Deq => {
            let net = reserve(builder, op.ty.width())?;
            Ok(WordNet { net, after })
        }
        _ => Ok(WordNet {
            net: NetId::new(0),
            after,
        }),
    }
}

/// The nets of the operations of a list, each with how many cycles its answer comes after the access.
pub fn op_nets(
    alloc: Global,
    builder: &mut Builder,
    ops: &[Op],
    around: &[AroundNets],
    afters: &[u32],
) -> Result<Vec<WordNet>, NoMemory>
    requires afters { length afters.now ≡ length ops.now }
    requires stands { (k : ℕ) → k < length ops.now → (op : Op) → slice_index_or ops.now k op ≡ op → StandsAt builder.old around.now op.kind }
    ensures nets { IfOk result (λ nets. AreNetsOf builder.new around.now (plain_ops ops.now) afters.now nets.items) }
    ensures reserves { IfOk result (λ nets. Reserves builder.old builder.new (reserved_of (plain_ops ops.now) nets.items)) }
{
    let mut nets = Vec::new(alloc);
    for index in 0..ops.len() {
        let net = op_net(builder, &ops[index], around, afters[index])?;
        nets.push(net)?;
    }
    Ok(nets)
}
