//! Which cores have a netlist so far.
ghost use Rattle.std.specs.Prelude.{◌≡◌, ◌&&◌, map};
ghost use Rattle.std.specs.List.{list_all};
ghost use Rattle.sp_core.specs.CoreParts.{plain_core};
ghost use Rattle.sp_core.specs.Declarations.{is_stream};
ghost use Rattle.sp_core.specs.Plain.{plain_counter, plain_mem, plain_node, plain_op, plain_span};
ghost use Rattle.sp_build.specs.Buildable.{is_stored, is_stored_mem, is_argument, reads_argument, is_early, has_early_bounds, has_early_ends, is_node_buildable, is_uncounted, is_buildable};

use sp_core::{Core, CoreCounter, CoreMem, CoreSpan, Node, Op, OpKind};
use sp_plan::kind;
use sp_words::{Kind, Style};

fn both(one: bool, other: bool) -> bool
    ensures { result ≡ (one && other) }
{
    one && other
}

fn is_stored(kind: Kind) -> bool
    ensures { result ≡ is_stored kind }
{
    matches!(
        kind,
        Kind::Reg | Kind::Sram | Kind::Fifo | Kind::ArgIn | Kind::ArgOut
    )
}

fn is_stored_mem(mem: &CoreMem) -> bool
    ensures { result ≡ is_stored_mem (plain_mem mem.now) }
{
    is_stored(mem.kind)
}

/// Whether all memories are registers, arguments, outputs, SRAMs and FIFOs.
fn are_stored(mems: &[CoreMem]) -> bool
    ensures { result ≡ list_all is_stored_mem (map plain_mem mems.now) }
{
    let mut all = true;
    for mem in mems {
        all = both(all, is_stored_mem(mem));
    }
    all
}

fn is_argument(core: &Core, mem: Option<u32>) -> bool
    ensures { result ≡ is_argument (plain_core core.now) mem }
{
    match mem {
        None => true,
        Some(m) => kind(core, m) == Kind::ArgIn,
    }
}

fn reads_argument(core: &Core, kind: OpKind, mem: Option<u32>) -> bool
    ensures { result ≡ reads_argument (plain_core core.now) kind mem }
{
    match kind {
        OpKind::Read => is_argument(core, mem),
        _ => true,
    }
}

fn is_early(core: &Core, op: &Op) -> bool
    ensures { result ≡ is_early (plain_core core.now) (plain_op op.now) }
{
    reads_argument(core, op.kind, op.mem)
}

/// Whether operations that read read arguments alone.
fn are_early(core: &Core, ops: &[Op]) -> bool
    ensures { result ≡ list_all (is_early (plain_core core.now)) (map plain_op ops.now) }
{
    let mut all = true;
    for op in ops {
        all = both(all, is_early(core, op));
    }
    all
}

fn has_early_bounds(core: &Core, counter: &CoreCounter) -> bool
    ensures { result ≡ has_early_bounds (plain_core core.now) (plain_counter counter.now) }
{
    are_early(core, &counter.from) && are_early(core, &counter.until)
}

/// Whether the bounds of counters do.
fn have_early_bounds(core: &Core, counters: &[CoreCounter]) -> bool
    ensures { result ≡ list_all (has_early_bounds (plain_core core.now)) (map plain_counter counters.now) }
{
    let mut all = true;
    for counter in counters {
        all = both(all, has_early_bounds(core, counter));
    }
    all
}

fn has_early_ends(core: &Core, span: &CoreSpan) -> bool
    ensures { result ≡ has_early_ends (plain_core core.now) (plain_span span.now) }
{
    match span {
        CoreSpan::One(ops) => are_early(core, ops),
        CoreSpan::Range(from, until) => are_early(core, from) && are_early(core, until),
    }
}

/// Whether the ends of slices do.
fn have_early_ends(core: &Core, spans: &[CoreSpan]) -> bool
    ensures { result ≡ list_all (has_early_ends (plain_core core.now)) (map plain_span spans.now) }
{
    let mut all = true;
    for span in spans {
        all = both(all, has_early_ends(core, span));
    }
    all
}

fn is_stream(style: Style) -> bool
    ensures { result ≡ is_stream style }
{
    style == Style::Stream
}

/// Whether a part has no sparse transfer and no `Stream` block, and its bounds and slices read arguments alone.
fn is_node_buildable(core: &Core, node: &Node) -> bool
    ensures { result ≡ is_node_buildable (plain_core core.now) (plain_node node.now) }
{
    match node {
        Node::Inner { counters, .. } => have_early_bounds(core, counters),
        Node::Outer {
            counters,
            style,
            stages,
            ..
        } => {
            let mut all = both(!is_stream(*style), have_early_bounds(core, counters));
            for stage in stages {
                all = both(all, is_node_buildable(core, &stage.node));
            }
            all
        }
        Node::Fsm { body, .. } => is_node_buildable(core, body),
        Node::Branch { yes, no, .. } => {
            both(is_node_buildable(core, yes), is_node_buildable(core, no))
        }
        Node::Load { span, .. } => have_early_ends(core, span),
        Node::Store { span, .. } => have_early_ends(core, span),
        Node::Sparse { .. } => false,
    }
}

/// Whether a part isn't a loop of counters.
fn is_uncounted(node: &Node) -> bool
    ensures { result ≡ is_uncounted (plain_node node.now) }
{
    match node {
        Node::Inner { counters, .. } => counters.is_empty(),
        Node::Outer { counters, .. } => counters.is_empty(),
        Node::Fsm { .. } => true,
        Node::Branch { .. } => true,
        _ => false,
    }
}

/// Whether a core has a netlist so far: its memories are registers, arguments, outputs, SRAMs and FIFOs; its transfers are loads and
/// stores; it has no `Stream` block; bounds of counters and ends of slices read arguments alone; its root has no counters.
pub fn is_buildable(core: &Core) -> bool
    ensures { result ≡ is_buildable (plain_core core.now) }
{
    are_stored(core.mems()) && (is_node_buildable(core, core.root()) && is_uncounted(core.root()))
}
