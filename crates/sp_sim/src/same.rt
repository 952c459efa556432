//! Whether two tasks are the same. A derived `==` would do, but that what it calls equal is the same isn't said by its
//! contract, and isn't found by search for so many variants.
ghost use Rattle.std.specs.Prelude.{◌≡◌, IsTrue};

use crate::step::Task;
use sp_words::{FixTy, Ty, parts_make_the_type};

fn is_fix(a: FixTy, b: FixTy) -> bool
    ensures { IsTrue result → a ≡ b }
{
    parts_make_the_type();
    a.signed() == b.signed() && a.whole() == b.whole() && a.frac() == b.frac()
}

fn is_type(a: Ty, b: Ty) -> bool
    ensures { IsTrue result → a ≡ b }
{
    match a {
        Ty::Fix(fix) => matches!(b, Ty::Fix(other) if is_fix(fix, other)),
        Ty::Bit => matches!(b, Ty::Bit),
    }
}

pub(crate) fn is_task(a: Task, b: Task) -> bool
    ensures { IsTrue result → a ≡ b }
{
    match a {
        Task::Add(ty) => matches!(b, Task::Add(other) if is_type(ty, other)),
        Task::Sub(ty) => matches!(b, Task::Sub(other) if is_type(ty, other)),
        Task::Mul(ty) => matches!(b, Task::Mul(other) if is_type(ty, other)),
        Task::Div(ty) => matches!(b, Task::Div(other) if is_type(ty, other)),
        Task::Rem(ty) => matches!(b, Task::Rem(other) if is_type(ty, other)),
        Task::And(ty) => matches!(b, Task::And(other) if is_type(ty, other)),
        Task::Or(ty) => matches!(b, Task::Or(other) if is_type(ty, other)),
        Task::Xor(ty) => matches!(b, Task::Xor(other) if is_type(ty, other)),
        Task::Min(ty) => matches!(b, Task::Min(other) if is_type(ty, other)),
        Task::Max(ty) => matches!(b, Task::Max(other) if is_type(ty, other)),
        Task::Lt(ty) => matches!(b, Task::Lt(other) if is_type(ty, other)),
        Task::Eq(ty) => matches!(b, Task::Eq(other) if is_type(ty, other)),
        Task::Not(ty) => matches!(b, Task::Not(other) if is_type(ty, other)),
        Task::Shl(ty, by) =>
            matches!(b, Task::Shl(other, places) if is_type(ty, other) && by == places),
        Task::Shr(ty, by) =>
            matches!(b, Task::Shr(other, places) if is_type(ty, other) && by == places),
        Task::Cast(from, to) =>
            matches!(b, Task::Cast(other, last) if is_type(from, other) && is_type(to, last)),
        Task::Choose(width) => matches!(b, Task::Choose(other) if width == other),
    }
}
