//! The counters of a body.
ghost use Rattle.std.specs.Prelude.{◌≡◌, ◌+◌, ◌<◌, ◌≤◌, ◌^◌, [], ◌∷◌, List, map, length, Some, IfOk};
ghost use Rattle.sp_gates.specs.Nets.{HasNet};
ghost use Rattle.sp_core.specs.Around.{Near};
ghost use Rattle.sp_core.specs.Numbering.{counters_size};
ghost use Rattle.sp_core.specs.Plain.{plain_counter};
ghost use Rattle.sp_node_runs.specs.BodiesGiven.{values_of};
ghost use Rattle.sp_node_runs.specs.BodiesLaws.{own_near};
ghost use Rattle.sp_op_nets.specs.Acted.{answers_in};
ghost use Rattle.sp_op_nets.specs.Reserved.{Reserves};
ghost use Rattle.sp_op_nets.specs.Table.{StandAround};
ghost use Rattle.sp_pipe.specs.Emitted.{GroupsFit};
ghost use Rattle.sp_bound_nets.specs.Bounds.{AreCountersRight, bound_lists};
ghost use Rattle.sp_bound_nets.specs.Direct.{AreActedLists};
ghost use Rattle.sp_inner_circuits.specs.Counting.{IsCounting};

use sp_around_tables::with_counters;
use sp_bound_nets::emit_bounds;
use sp_core::CoreCounter;
use sp_counters::{Counter, Counters, emit};
use sp_gates::reserve;
use sp_netlist::{Builder, NetId, NoMemory};
use sp_op_nets::{ActedList, AroundNets};
use sp_pipe::Groups;
use std::alloc::Global;

/// What issues the groups of a body, the nets of the counters inside of it, and the operations of the bounds.
#[derive(Debug, Drop)]
pub(crate) struct Counting {
    pub(crate) groups: Groups,
    pub(crate) inside: Vec<AroundNets>,
    pub(crate) acted: Vec<ActedList>,
}

/// The nets of the values of counters.
fn values(alloc: Global, counters: &[Counter]) -> Result<Vec<NetId>, NoMemory>
    ensures { IfOk result (λ values. values.items ≡ values_of counters.now) }
{
    let mut values = Vec::new(alloc);
    for index in 0..counters.len() {
        values.push(counters[index].value)?;
    }
    Ok(values)
}

/// Emits the counters of a body with their bounds. The net by which they go on is reserved. `number` is that of the first
/// operation of the bounds.
pub(crate) fn count_groups(
    alloc: Global,
    builder: &mut Builder,
    counters: &[CoreCounter],
    number: u32,
    around: &[AroundNets],
    start: NetId,
) -> Result<Counting, NoMemory>
    requires some { 1 ≤ length counters.now }
    requires right { AreCountersRight builder.old around.now (map plain_counter counters.now) }
    requires numbers { number + counters_size (map plain_counter counters.now) < 2 ^ 32 }
    requires start { HasNet builder.old start 1 }
    ensures reserves { IfOk result (λ counting. Reserves builder.old builder.new (counting.groups.step ∷ answers_in counting.acted.items)) }
    ensures groups { IfOk result (λ counting. GroupsFit builder.new (Some counting.groups)) }
    ensures stand { IfOk result (λ counting. (near : List Near) → StandAround builder.old around.now near → StandAround builder.new counting.inside.items (own_near (map plain_counter counters.now) near)) }
    ensures acted { IfOk result (λ counting. AreActedLists builder.new number (bound_lists (map plain_counter counters.now)) counting.acted.items) }
    ensures counts { IfOk result (λ counting. IsCounting builder.old builder.new around.now number (map plain_counter counters.now) start counting) }
{
    let step = reserve(builder, 1)?;
    let bounds = emit_bounds(alloc, builder, counters, number, around)?;
    let part = Counters {
        start,
        step,
        counters: bounds.counts,
    };
    let counted = emit(alloc, builder, &part)?;
    let values = values(alloc, &counted.counters)?;
    let inside = with_counters(alloc, around, counters, &values, &counted.masks)?;
    Ok(Counting {
        groups: Groups {
            more: counted.more,
            step,
        },
        inside,
        acted: bounds.acted,
    })
}
