//! The nets of the ends of a slice.
ghost use Rattle.std.specs.Prelude.{◌≡◌, ◌+◌, ◌<◌, ◌^◌, [], ◌∷◌, length, map, All, IfOk};
ghost use Rattle.sp_core.specs.Numbering.{spans_size};
ghost use Rattle.sp_core.specs.Plain.{plain_span};
ghost use Rattle.sp_op_nets.specs.Acted.{answers_in};
ghost use Rattle.sp_op_nets.specs.Reserved.{Reserves};
ghost use Rattle.sp_bound_nets.specs.Direct.{AreActedLists};
ghost use Rattle.sp_bound_nets.specs.Spans.{AddsSpan, AreSpans, AreSpansRight, HasEnds, nets_of_spans, span_lists};

use crate::direct::emit_direct;
use sp_core::CoreSpan;
use sp_netlist::{Builder, NetId, NoMemory};
use sp_op_nets::{ActedList, AroundNets};
use std::alloc::Global;

/// The net of an index, or those of both ends of a range.
#[derive(Clone, Copy, Debug, PartialEq, Eq)]
pub enum SpanNet {
    One(NetId),
    Range(NetId, NetId),
}

/// The nets of spans, and for each of them the operations of its index, or of its first end and then of the other.
#[derive(Debug, Drop)]
pub struct Spans {
    pub nets: Vec<SpanNet>,
    pub acted: Vec<ActedList>,
}

/// Emits the ends of a span behind those of others. Gives the number of the next operation.
fn add_span(
    alloc: Global,
    builder: &mut Builder,
    spans: &mut Spans,
    span: &CoreSpan,
    number: u32,
    around: &[AroundNets],
) -> Result<u32, NoMemory>
    requires right { AreSpansRight builder.old around.now (plain_span span.now ∷ []) }
    requires numbers { number + spans_size (plain_span span.now ∷ []) < 2 ^ 32 }
    ensures next { IfOk result (λ next. next ≡ number + spans_size (plain_span span.now ∷ [])) }
    ensures adds { IfOk result (λ next. AddsSpan builder.old builder.new around.now number (plain_span span.now) spans.old spans.new) }
{
    match span {
        CoreSpan::One(ops) => {
            let index = emit_direct(alloc, builder, ops, number, around)?;
            spans.nets.push(SpanNet::One(index.net))?;
            spans.acted.push(index.acted)?;
            Ok(number + ops.len() as u32)
        }
        CoreSpan::Range(from, until) => {
            let middle = number + from.len() as u32;
            let first = emit_direct(alloc, builder, from, number, around)?;
            let second = emit_direct(alloc, builder, until, middle, around)?;
            spans.nets.push(SpanNet::Range(first.net, second.net))?;
            spans.acted.push(first.acted)?;
            spans.acted.push(second.acted)?;
            Ok(middle + until.len() as u32)
        }
    }
}

/// Emits the ends of a slice, which stand in each cycle. `number` is that of the first operation.
pub fn emit_spans(
    alloc: Global,
    builder: &mut Builder,
    spans: &[CoreSpan],
    number: u32,
    around: &[AroundNets],
) -> Result<Spans, NoMemory>
    requires right { AreSpansRight builder.old around.now (map plain_span spans.now) }
    requires numbers { number + spans_size (map plain_span spans.now) < 2 ^ 32 }
    ensures reserves { IfOk result (λ ends. Reserves builder.old builder.new (answers_in ends.acted.items)) }
    ensures each { IfOk result (λ ends. length ends.nets.items ≡ length spans.now) }
    ensures ends { IfOk result (λ ends. All (HasEnds builder.new) ends.nets.items) }
    ensures acted { IfOk result (λ ends. AreActedLists builder.new number (span_lists (map plain_span spans.now)) ends.acted.items) }
    ensures spans { IfOk result (λ ends. AreSpans builder.old builder.new around.now number (map plain_span spans.now) (nets_of_spans ends.nets.items) ends.acted.items) }
{
    let mut ends = Spans {
        nets: Vec::new(alloc),
        acted: Vec::new(alloc),
    };
    let mut next = number;
    for index in 0..spans.len() {
        next = add_span(alloc, builder, &mut ends, &spans[index], next, around)?;
    }
    Ok(ends)
}
