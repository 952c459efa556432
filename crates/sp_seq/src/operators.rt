//! The operators of expressions, on words of their types.
ghost use Rattle.std.specs.Prelude.{◌≡◌, ◌<◌};
ghost use Rattle.sp_words.specs.declared.types.Ty.{Ty};
ghost use Rattle.sp_words.specs.Words.{IsWord};
ghost use Rattle.sp_tree.specs.Operators as operators;
ghost use Rattle.sp_tree.specs.Typing.{TwoTyped};

use sp_tree::Comb;
use sp_words::{BinOp, Ty, UnOp};

/// The word of a `Bit`.
fn bit(is: bool) -> u64
    ensures value { result ≡ operators.bit is }
    ensures is_word { result < 2 }
{
    if is { 1 } else { 0 }
}

pub(crate) fn one_word(op: UnOp, ty: Ty, a: u64) -> u64
    requires { IsWord ty a }
    ensures value { result ≡ operators.one_word op ty a }
    ensures is_word { IsWord ty result }
{
    match op {
        UnOp::Neg => sp_words::sub(ty, 0, a),
        UnOp::Not => sp_words::not(ty, a),
    }
}

/// By the type of the operands.
pub(crate) fn two_word(op: BinOp, ty: Ty, a: u64, b: u64) -> u64
    requires left { IsWord ty a }
    requires right { IsWord ty b }
    ensures value { result ≡ operators.two_word op ty a b }
    ensures is_word { (to : Ty) → TwoTyped op ty to → IsWord to result }
{
    match op {
        BinOp::Add => sp_words::add(ty, a, b),
        BinOp::Sub => sp_words::sub(ty, a, b),
        BinOp::Mul => sp_words::mul(ty, a, b),
        BinOp::Div => sp_words::div(ty, a, b),
        BinOp::Rem => sp_words::rem(ty, a, b),
        BinOp::And => sp_words::and(ty, a, b),
        BinOp::Or => sp_words::or(ty, a, b),
        BinOp::Xor => sp_words::xor(ty, a, b),
        BinOp::Lt => bit(sp_words::lt(ty, a, b)),
        BinOp::Le => bit(!sp_words::lt(ty, b, a)),
        BinOp::Gt => bit(sp_words::lt(ty, b, a)),
        BinOp::Ge => bit(!sp_words::lt(ty, a, b)),
        BinOp::Eq => bit(sp_words::eq(ty, a, b)),
        BinOp::Ne => bit(!sp_words::eq(ty, a, b)),
        BinOp::Min => sp_words::min(ty, a, b),
        BinOp::Max => sp_words::max(ty, a, b),
    }
}

/// To the left where the flag is set.
pub(crate) fn shifted(left: bool, ty: Ty, a: u64, by: u8) -> u64
    requires operand { IsWord ty a }
    requires distance { by < 64 }
    ensures value { result ≡ operators.shifted left ty a by }
    ensures is_word { IsWord ty result }
{
    if left {
        sp_words::shl(ty, a, by)
    } else {
        sp_words::shr(ty, a, by)
    }
}

/// The second word where the first is 1.
pub(crate) fn chosen(c: u64, a: u64, b: u64) -> u64
    ensures { result ≡ operators.chosen c a b }
{
    if c == 1 { a } else { b }
}

/// The operator of a combiner.
pub(crate) fn combined(comb: Comb, ty: Ty, a: u64, b: u64) -> u64
    requires left { IsWord ty a }
    requires right { IsWord ty b }
    ensures value { result ≡ operators.combined comb ty a b }
    ensures is_word { IsWord ty result }
{
    match comb {
        Comb::Add => sp_words::add(ty, a, b),
        Comb::Mul => sp_words::mul(ty, a, b),
        Comb::And => sp_words::and(ty, a, b),
        Comb::Or => sp_words::or(ty, a, b),
        Comb::Xor => sp_words::xor(ty, a, b),
        Comb::Min => sp_words::min(ty, a, b),
        Comb::Max => sp_words::max(ty, a, b),
    }
}
