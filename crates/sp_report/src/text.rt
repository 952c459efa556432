ghost use Rattle.std.specs.Prelude.{◌≡◌, string_bytes, IfOk};
ghost use Rattle.sp_core.specs.CoreParts.{plain_core};
ghost use Rattle.sp_plan.specs.Plain.{plain_plan};
ghost use Rattle.sp_report.specs.Report.{report_text};

use crate::NoMemory;
use crate::memories::push_mems;
use crate::nodes::push_nodes;
use sp_core::Core;
use sp_plan::Plan;
use std::alloc::Global;

/// The report of a plan of a core in lanes. Memories on the chip that stand in the program's text are numbered from 0 in
/// order, nodes from 0 in preorder. A plan is to have an entry for each memory and each node: a memory without one has no
/// line, and the line of a node without one, or with one of another kind, tells only what the node is.
pub fn report(alloc: Global, core: &Core, plan: &Plan) -> Result<String, NoMemory>
    ensures { IfOk result (λ text. string_bytes text ≡ report_text (plain_core core.now) (plain_plan plan.now)) }
{
    let mut text = String::new(alloc);
    push_mems(&mut text, core.mems(), &plan.mems)?;
    push_nodes(&mut text, 0, core.root(), plan)?;
    Ok(text)
}
