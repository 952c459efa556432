//! The memories and DRAMs that operations and transfers name, by number.

ghost use Rattle.std.specs.Prelude.{◌≡◌, ◌++◌, [], ◌∷◌, map, slice_index_or, IfOk, OnOk};
ghost use Rattle.sp_core.specs.CoreParts.{plain_core};
ghost use Rattle.sp_core.specs.Plain.{plain_op, plain_counter, plain_span, plain_node};
ghost use Rattle.sp_plan.specs.Named.{list_names, counters_names, spans_names, names, share_other};
ghost use Rattle.sp_plan.specs.Runs.{plain_named};

use crate::NoMemory;
use sp_core::{Core, CoreCounter, CoreSpan, Node, Op};
use sp_plan::{Named, names_other, transfer};
use std::alloc::Global;

fn push_ops(ops: &[Op], into: &mut Vec<Named>) -> Result<(), NoMemory>
    ensures { OnOk result (map plain_named into.new.items ≡ map plain_named into.old.items ++ list_names (map plain_op ops.now)) }
{
    for op in ops {
        into.push(Named::Access(op.mem))?;
    }
    Ok(())
}

fn push_counters(counters: &[CoreCounter], into: &mut Vec<Named>) -> Result<(), NoMemory>
    ensures { OnOk result (map plain_named into.new.items ≡ map plain_named into.old.items ++ counters_names (map plain_counter counters.now)) }
{
    for counter in counters {
        push_ops(&counter.from, into)?;
        push_ops(&counter.until, into)?;
    }
    Ok(())
}

fn push_span(span: &CoreSpan, into: &mut Vec<Named>) -> Result<(), NoMemory>
    ensures { OnOk result (map plain_named into.new.items ≡ map plain_named into.old.items ++ spans_names (plain_span span.now ∷ [])) }
{
    match span {
        CoreSpan::One(ops) => push_ops(ops, into),
        CoreSpan::Range(from, until) => {
            push_ops(from, into)?;
            push_ops(until, into)
        }
    }
}

fn push_spans(spans: &[CoreSpan], into: &mut Vec<Named>) -> Result<(), NoMemory>
    ensures { OnOk result (map plain_named into.new.items ≡ map plain_named into.old.items ++ spans_names (map plain_span spans.now)) }
{
    for span in spans {
        push_span(span, into)?;
    }
    Ok(())
}

/// What the operations and transfers of a part name, in order.
fn push_names(core: &Core, node: &Node, into: &mut Vec<Named>) -> Result<(), NoMemory>
    ensures { OnOk result (map plain_named into.new.items ≡ map plain_named into.old.items ++ names (plain_core core.now) (plain_node node.now)) }
{
    match node {
        Node::Inner { counters, ops, .. } => {
            push_counters(counters, into)?;
            push_ops(ops, into)
        }
        Node::Outer {
            counters,
            stages,
            ..
        } => {
            push_counters(counters, into)?;
            for stage in stages {
                push_names(core, &stage.node, into)?;
            }
            Ok(())
        }
        Node::Fsm {
            start,
            test,
            body,
            next,
            ..
        } => {
            push_ops(start, into)?;
            push_ops(test, into)?;
            push_names(core, body, into)?;
            push_ops(next, into)
        }
        Node::Branch { test, yes, no } => {
            push_ops(test, into)?;
            push_names(core, yes, into)?;
            push_names(core, no, into)
        }
        Node::Load { dram, mem, span } => {
            push_spans(span, into)?;
            into.push(transfer(core, *dram, *mem, None))?;
            Ok(())
        }
        Node::Store { dram, mem, span } => {
            push_spans(span, into)?;
            into.push(transfer(core, *dram, *mem, None))?;
            Ok(())
        }
        Node::Sparse {
            dram,
            mem,
            index,
            span,
            count,
            ..
        } => {
            push_spans(span, into)?;
            push_ops(count, into)?;
            into.push(transfer(core, *dram, *mem, *index))?;
            Ok(())
        }
    }
}

/// What each operation and each transfer of a core names, by number.
pub(crate) fn names(alloc: Global, core: &Core) -> Result<Vec<Named>, NoMemory>
    ensures { IfOk result (λ all. map plain_named all.items ≡ names (plain_core core.now) (plain_core core.now).root) }
{
    let mut all = Vec::new(alloc);
    push_names(core, core.root(), &mut all)?;
    Ok(all)
}

fn named_at(names: &[Named], n: u32) -> Named
    ensures { plain_named result ≡ slice_index_or (map plain_named names.now) n [] }
{
    match names.get(n as usize) {
        Some(named) => *named,
        None => Named::Access(None),
    }
}

/// Whether two operations or transfers, by number, name one memory that isn't among these.
pub(crate) fn share_other(
    core: &Core,
    all: &[Named],
    owned: &[u32],
    first: u32,
    second: u32,
) -> bool
    requires { map plain_named all.now ≡ names (plain_core core.now) (plain_core core.now).root }
    ensures { result ≡ share_other (plain_core core.now) owned.now first second }
{
    let _core = core;
    names_other(named_at(all, first), named_at(all, second), owned)
}
