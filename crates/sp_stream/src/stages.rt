//! What the stages of a block do.

ghost use Rattle.std.specs.Prelude.{◌≡◌, map};
ghost use Rattle.std.specs.List.{list_all, list_any};
ghost use Rattle.sp_core.specs.CoreParts.{plain_core};
ghost use Rattle.sp_core.specs.Plain.{plain_op, plain_counter, plain_node, plain_stage_list};
ghost use Rattle.sp_stream.specs.Parts.{is_act};
ghost use Rattle.sp_stream.specs.Proper.{is_number, acts_on, bound_ops, acts_in, puts_and_takes, nodes_of, how_many, place_from, is_loop, bounds_of, names_array, has_array, is_stage};

use sp_core::{Core, CoreCounter, Node, Op, OpKind, Stage};
use sp_plan::kind;
use sp_words::Kind;

/// What is done with a memory.
#[derive(Clone, Copy, Debug, PartialEq, Eq)]
pub(crate) enum Act {
    Name,
    Put,
    Take,
    Change,
}

/// Whether operations of a kind do it.
fn is_act(act: Act, kind: OpKind) -> bool
    ensures { result ≡ is_act act kind }
{
    match kind {
        OpKind::Write => act == Act::Name || act == Act::Change,
        OpKind::Enq => act != Act::Take,
        OpKind::Deq => act != Act::Put,
        OpKind::Reset => true,
        _ => act == Act::Name,
    }
}

fn is_number(m: u32, mem: Option<u32>) -> bool
    ensures { result ≡ is_number m mem }
{
    match mem {
        None => false,
        Some(k) => m == k,
    }
}

fn ops_act(act: Act, m: u32, ops: &[Op]) -> bool
    ensures { result ≡ list_any (acts_on (is_act act) m) (map plain_op ops.now) }
{
    for op in ops {
        if is_act(act, op.kind) && is_number(m, op.mem) {
            return true;
        }
    }
    false
}

#[tactic(auto, using(crate::proofs::StageLemmas::any_in_both))]
fn bounds_act(act: Act, m: u32, counters: &[CoreCounter]) -> bool
    ensures { result ≡ list_any (acts_on (is_act act) m) (bound_ops (map plain_counter counters.now)) }
{
    for counter in counters {
        if ops_act(act, m, &counter.from) || ops_act(act, m, &counter.until) {
            return true;
        }
    }
    false
}

/// Whether a stage does something with a memory.
#[tactic(auto, using(crate::proofs::StageLemmas::any_in_both))]
fn acts_in(act: Act, m: u32, node: &Node) -> bool
    ensures { result ≡ acts_in (is_act act) m (plain_node node.now) }
{
    match node {
        Node::Inner { counters, ops, .. } => bounds_act(act, m, counters) || ops_act(act, m, ops),
        _ => false,
    }
}

/// How many stages do it.
pub(crate) fn how_many(act: Act, m: u32, stages: &[Stage]) -> usize
    ensures { result ≡ how_many (is_act act) m (nodes_of (plain_stage_list stages.now)) }
{
    let mut count = 0;
    for stage in stages {
        if acts_in(act, m, &stage.node) {
            count += 1;
        }
    }
    count
}

/// The place of the first one that does it.
pub(crate) fn place_of(act: Act, m: u32, stages: &[Stage]) -> Option<usize>
    ensures { result ≡ place_from 0 (acts_in (is_act act) m) (nodes_of (plain_stage_list stages.now)) }
{
    let mut place = 0;
    for stage in stages {
        if acts_in(act, m, &stage.node) {
            return Some(place);
        }
        place += 1;
    }
    None
}

/// Whether a stage puts into a FIFO and takes from it.
pub(crate) fn puts_and_takes(m: u32, stages: &[Stage]) -> bool
    ensures { result ≡ list_any (puts_and_takes m) (nodes_of (plain_stage_list stages.now)) }
{
    for stage in stages {
        if acts_in(Act::Put, m, &stage.node) && acts_in(Act::Take, m, &stage.node) {
            return true;
        }
    }
    false
}

fn is_loop(node: &Node) -> bool
    ensures { result ≡ is_loop (plain_node node.now) }
{
    match node {
        Node::Inner { counters, .. } => !counters.is_empty(),
        _ => false,
    }
}

fn names_array(core: &Core, mem: Option<u32>) -> bool
    ensures { result ≡ names_array (plain_core core.now) mem }
{
    match mem {
        None => false,
        Some(m) => match kind(core, m) {
            Kind::Sram => true,
            Kind::LineBuf => true,
            _ => false,
        },
    }
}

fn has_array(core: &Core, ops: &[Op]) -> bool
    ensures { result ≡ has_array (plain_core core.now) (map plain_op ops.now) }
{
    for op in ops {
        if names_array(core, op.mem) {
            return true;
        }
    }
    false
}

#[tactic(auto, using(crate::proofs::StageLemmas::any_in_both))]
fn bounds_have_array(core: &Core, counters: &[CoreCounter]) -> bool
    ensures { result ≡ has_array (plain_core core.now) (bound_ops (map plain_counter counters.now)) }
{
    for counter in counters {
        if has_array(core, &counter.from) || has_array(core, &counter.until) {
            return true;
        }
    }
    false
}

fn has_array_bound(core: &Core, node: &Node) -> bool
    ensures { result ≡ has_array (plain_core core.now) (bounds_of (plain_node node.now)) }
{
    match node {
        Node::Inner { counters, .. } => bounds_have_array(core, counters),
        _ => false,
    }
}

/// Whether each stage is a loop over one list of operations, and no bound of one names an SRAM or a line buffer.
pub(crate) fn are_loops(core: &Core, stages: &[Stage]) -> bool
    ensures { result ≡ list_all (is_stage (plain_core core.now)) (nodes_of (plain_stage_list stages.now)) }
{
    for stage in stages {
        if !is_loop(&stage.node) || has_array_bound(core, &stage.node) {
            return false;
        }
    }
    true
}
