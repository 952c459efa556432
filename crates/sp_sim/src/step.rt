//! Steps: the cells that compute, in a form that is quick to carry out.
ghost use Rattle.std.specs.Prelude.{◌≡◌, ◌+◌, ◌<◌, ◌^◌, IsTrue};
ghost use Rattle.sp_words.specs.Types.{width_of};
ghost use Rattle.sp_words.specs.Words.{IsWord, word_mul, word_lt, word_shr};
ghost use Rattle.sp_netlist.specs.Cells.{plain_cell};
ghost use Rattle.sp_netlist.specs.Rules.{is_computed};
ghost use Rattle.sp_sim.specs.Steps as steps;

use sp_netlist::{Cell, CellOp, CellShift, NetId};
use sp_words::{Ty, wrapping_is_kept};

/// What a step computes of the words of its operands, by the type of these.
#[derive(Clone, Copy)]
pub(crate) enum Task {
    Add(Ty),
    Sub(Ty),
    Mul(Ty),
    Div(Ty),
    Rem(Ty),
    And(Ty),
    Or(Ty),
    Xor(Ty),
    Min(Ty),
    Max(Ty),
    Lt(Ty),
    Eq(Ty),
    Not(Ty),
    Shl(Ty, u8),
    Shr(Ty, u8),
    /// From the first type to the second.
    Cast(Ty, Ty),
    /// The first operand where the third is 1, and else the second, of this width.
    Choose(u8),
}

/// A cell that computes: its task, its net and its operands. A task with fewer than three operands leaves the later
/// ones alone.
#[derive(Clone, Copy)]
pub(crate) struct Step {
    pub(crate) task: Task,
    pub(crate) net: NetId,
    pub(crate) first: NetId,
    pub(crate) second: NetId,
    pub(crate) third: NetId,
}

/// The task of an operator.
fn task_of(op: CellOp, ty: Ty) -> Task
    ensures { result ≡ steps.task_of op ty }
{
    match op {
        CellOp::Add => Task::Add(ty),
        CellOp::Sub => Task::Sub(ty),
        CellOp::Mul => Task::Mul(ty),
        CellOp::Div => Task::Div(ty),
        CellOp::Rem => Task::Rem(ty),
        CellOp::And => Task::And(ty),
        CellOp::Or => Task::Or(ty),
        CellOp::Xor => Task::Xor(ty),
        CellOp::Min => Task::Min(ty),
        CellOp::Max => Task::Max(ty),
        CellOp::Lt => Task::Lt(ty),
        CellOp::Eq => Task::Eq(ty),
    }
}

/// The task of a shift.
fn task_of_shift(side: CellShift, ty: Ty, places: u8) -> Task
    ensures { result ≡ steps.task_of_shift side ty places }
{
    match side {
        CellShift::Shl => Task::Shl(ty, places),
        CellShift::Shr => Task::Shr(ty, places),
    }
}

/// The step of a task with one operand.
fn of_one(task: Task, net: NetId, operand: NetId) -> Step
    ensures { result ≡ record { task = task; net = net; first = operand; second = operand; third = operand } }
{
    Step {
        task,
        net,
        first: operand,
        second: operand,
        third: operand,
    }
}

/// The step of a cell that computes.
pub(crate) fn step_of(cell: &Cell) -> Step
    requires { IsTrue (is_computed (plain_cell cell.now)) }
    ensures { steps.cell_of result ≡ plain_cell cell.now }
{
    match cell {
        Cell::Op(net, ty, op, first, second) => Step {
            task: task_of(*op, *ty),
            net: *net,
            first: *first,
            second: *second,
            third: *second,
        },
        Cell::Not(net, ty, operand) => of_one(Task::Not(*ty), *net, *operand),
        Cell::Shift(net, ty, side, operand, places) => {
            of_one(task_of_shift(*side, *ty, *places), *net, *operand)
        }
        Cell::Cast(net, from, to, operand) => of_one(Task::Cast(*from, *to), *net, *operand),
        Cell::Mux(net, width, choice, first, second) => Step {
            task: Task::Choose(*width),
            net: *net,
            first: *first,
            second: *second,
            third: *choice,
        },
        _ => unreachable!(),
    }
}

/// The greatest word of the type.
fn greatest(ty: Ty) -> u64
    ensures { result + 1 ≡ 2 ^ width_of ty }
{
    u64::MAX >> (64 - ty.width())
}

/// The product. Of whole numbers it is that of the words, which takes no sign into account.
#[inline]
pub(crate) fn product(ty: Ty, a: u64, b: u64) -> u64
    requires left { IsWord ty a }
    requires right { IsWord ty b }
    ensures word { result ≡ word_mul ty a b }
    ensures fits { IsWord ty result }
{
    wrapping_is_kept();
    if ty.frac() == 0 {
        a.wrapping_mul(b) & greatest(ty)
    } else {
        sp_words::mul(ty, a, b)
    }
}

/// Whether the value of `a` is below that of `b`: their words compare so once the sign bit of both is turned.
#[inline]
pub(crate) fn is_below(ty: Ty, a: u64, b: u64) -> bool
    requires left { IsWord ty a }
    requires right { IsWord ty b }
    ensures { result ≡ word_lt ty a b }
{
    let half = u64::from(ty.signed()) << (ty.width() - 1);
    let mask = greatest(ty);
    (a.wrapping_add(half) & mask) < (b.wrapping_add(half) & mask)
}

/// The word over `2 ^ by`, rounded down. It is shifted with its sign bit turned, and half of the range goes off again.
#[inline]
pub(crate) fn shifted(ty: Ty, a: u64, by: u8) -> u64
    requires operand { IsWord ty a }
    requires distance { by < 64 }
    ensures word { result ≡ word_shr ty a by }
    ensures fits { IsWord ty result }
{
    if by < ty.width() {
        let half = u64::from(ty.signed()) << (ty.width() - 1);
        let mask = greatest(ty);
        ((a.wrapping_add(half) & mask) >> by).wrapping_sub(half >> by) & mask
    } else {
        sp_words::shr(ty, a, by)
    }
}
