//! The counters of a circuit with the nets of their bounds.
ghost use Rattle.std.specs.Prelude.{◌≡◌, ◌+◌, ◌<◌, ◌^◌, [], ◌∷◌, map, All, IfOk};
ghost use Rattle.sp_core.specs.Numbering.{counters_size};
ghost use Rattle.sp_core.specs.Plain.{plain_counter};
ghost use Rattle.sp_counters.specs.Fits.{CountFits};
ghost use Rattle.sp_op_nets.specs.Acted.{answers_in};
ghost use Rattle.sp_op_nets.specs.Reserved.{Reserves};
ghost use Rattle.sp_bound_nets.specs.Bounds.{AddsBound, AreBounds, AreCountersRight, own_pars, pars_of, bound_lists};
ghost use Rattle.sp_bound_nets.specs.Direct.{AreActedLists};

use crate::direct::emit_direct;
use sp_core::CoreCounter;
use sp_counters::Count;
use sp_netlist::{Builder, NoMemory};
use sp_op_nets::{ActedList, AroundNets};
use std::alloc::Global;

/// The counters with the nets of their bounds, and for each of them the operations of its first bound and then of the other.
#[derive(Debug, Drop)]
pub struct Bounds {
    pub counts: Vec<Count>,
    pub acted: Vec<ActedList>,
}

/// Emits the bounds of a counter behind those of others. Gives the number of the next operation.
fn add_bound(
    alloc: Global,
    builder: &mut Builder,
    bounds: &mut Bounds,
    counter: &CoreCounter,
    number: u32,
    around: &[AroundNets],
) -> Result<u32, NoMemory>
    requires right { AreCountersRight builder.old around.now (plain_counter counter.now ∷ []) }
    requires numbers { number + counters_size (plain_counter counter.now ∷ []) < 2 ^ 32 }
    ensures next { IfOk result (λ next. next ≡ number + counters_size (plain_counter counter.now ∷ [])) }
    ensures adds { IfOk result (λ next. AddsBound builder.old builder.new around.now number (plain_counter counter.now) bounds.old bounds.new) }
{
    let middle = number + counter.from.len() as u32;
    let from = emit_direct(alloc, builder, &counter.from, number, around)?;
    let until = emit_direct(alloc, builder, &counter.until, middle, around)?;
    bounds.counts.push(Count {
        from: from.net,
        until: until.net,
        by: counter.by,
        par: counter.par,
    })?;
    bounds.acted.push(from.acted)?;
    bounds.acted.push(until.acted)?;
    Ok(middle + counter.until.len() as u32)
}

/// Emits the bounds of counters, which stand in each cycle. `number` is that of the first operation.
pub fn emit_bounds(
    alloc: Global,
    builder: &mut Builder,
    counters: &[CoreCounter],
    number: u32,
    around: &[AroundNets],
) -> Result<Bounds, NoMemory>
    requires right { AreCountersRight builder.old around.now (map plain_counter counters.now) }
    requires numbers { number + counters_size (map plain_counter counters.now) < 2 ^ 32 }
    ensures reserves { IfOk result (λ bounds. Reserves builder.old builder.new (answers_in bounds.acted.items)) }
    ensures fits { IfOk result (λ bounds. All (CountFits builder.new) bounds.counts.items) }
    ensures pars { IfOk result (λ bounds. pars_of bounds.counts.items ≡ own_pars (map plain_counter counters.now)) }
    ensures acted { IfOk result (λ bounds. AreActedLists builder.new number (bound_lists (map plain_counter counters.now)) bounds.acted.items) }
    ensures bounds { IfOk result (λ bounds. AreBounds builder.old builder.new around.now number (map plain_counter counters.now) bounds.counts.items bounds.acted.items) }
{
    let mut bounds = Bounds {
        counts: Vec::new(alloc),
        acted: Vec::new(alloc),
    };
    let mut next = number;
    for index in 0..counters.len() {
        next = add_bound(alloc, builder, &mut bounds, &counters[index], next, around)?;
    }
    Ok(bounds)
}
