//! Steps level by level. A net that isn't computed has level 0, and any other one more than the greatest level of its
//! operands, so that steps of one level can stand in any order: those of one kind stand behind each other, and a
//! processor guesses rightly which comes next.
ghost use Rattle.std.specs.Prelude.{◌≡◌, ℕ, ◌<◌, ◌-◌, ◌^◌, All, IfOk, OnOk};
ghost use Rattle.sp_sim.specs.Levels.{raised, AreOrdered, Rises};
ghost use Rattle.sp_sim.specs.Rows.{word_of};

use crate::NoMemory;
use crate::load::empty_row;
use crate::row::Row;
use crate::step::{Step, Task};
use sp_netlist::Netlist;
use std::alloc::Global;

/// What a task computes, whatever the types of its operands.
#[derive(Clone, Copy, PartialEq, Eq, PartialOrd, Ord)]
enum Kind {
    Add,
    Sub,
    Mul,
    Div,
    Rem,
    And,
    Or,
    Xor,
    Min,
    Max,
    Lt,
    Eq,
    Not,
    Shl,
    Shr,
    Cast,
    Choose,
}

fn kind_of(task: Task) -> Kind {
    match task {
        Task::Add(_) => Kind::Add,
        Task::Sub(_) => Kind::Sub,
        Task::Mul(_) => Kind::Mul,
        Task::Div(_) => Kind::Div,
        Task::Rem(_) => Kind::Rem,
        Task::And(_) => Kind::And,
        Task::Or(_) => Kind::Or,
        Task::Xor(_) => Kind::Xor,
        Task::Min(_) => Kind::Min,
        Task::Max(_) => Kind::Max,
        Task::Lt(_) => Kind::Lt,
        Task::Eq(_) => Kind::Eq,
        Task::Not(_) => Kind::Not,
        Task::Shl(_, _) => Kind::Shl,
        Task::Shr(_, _) => Kind::Shr,
        Task::Cast(_, _) => Kind::Cast,
        Task::Choose(_) => Kind::Choose,
    }
}

/// Puts the level of the net that the step computes.
fn raise(levels: &mut Row, step: &Step)
    requires { (net : ℕ) → word_of levels.old net < 2 ^ 64 - 1 }
    ensures { levels.new ≡ raised levels.old step.now }
{
    let first = levels.get(step.first);
    let second = levels.get(step.second);
    let third = levels.get(step.third);
    levels.put(step.net, first.max(second).max(third) + 1);
}

/// The levels of all nets.
fn levels_of(alloc: Global, netlist: &Netlist, steps: &[Step]) -> Result<Row, NoMemory>
    requires { AreOrdered netlist.now steps.now }
    ensures { IfOk result (λ levels. All (Rises netlist.now (word_of levels)) steps.now) }
{
    let mut levels = empty_row(alloc, netlist.cells())?;
    for step in steps {
        raise(&mut levels, step);
    }
    Ok(levels)
}

/// Puts the steps in the order of their levels, and those of one level in that of their kinds.
pub(crate) fn by_levels(
    alloc: Global,
    netlist: &Netlist,
    steps: &mut Vec<Step>,
) -> Result<(), NoMemory>
    requires { AreOrdered netlist.now steps.old.items }
    ensures { OnOk result (AreOrdered netlist.now steps.new.items) }
{
    let levels = levels_of(alloc, netlist, steps)?;
    steps.sort_by_key(|step| kind_of(step.task))?;
    steps.sort_by_key(|step| levels.get(step.net))?;
    Ok(())
}
