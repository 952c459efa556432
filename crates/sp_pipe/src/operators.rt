//! Nets of what the operators of a core give.
ghost use Rattle.std.specs.Prelude.{◌≡◌, ℕ, ◌<◌, not, [], if◌then◌else◌, IfOk, OnOk};
ghost use Rattle.sp_core.specs.Operators.{bit, one_word, two_word, shifted};
ghost use Rattle.sp_core.specs.Typed.{is_comparison};
ghost use Rattle.sp_gates.specs.Grows.{Fills};
ghost use Rattle.sp_gates.specs.Nets.{HasNet};
ghost use Rattle.sp_gates.specs.Runs.{RunsOn};
ghost use Rattle.sp_netlist.specs.Signals.{Signals, shift_word};
ghost use Rattle.sp_words.specs.declared.types.Ty.{Ty};
ghost use Rattle.sp_words.specs.Types.{width_of};
ghost use Rattle.sp_words.specs.Words.{word_lt, word_eq};

use sp_gates::{constant, invert, operate, shift};
use sp_netlist::{Builder, CellOp, CellShift, NetId, NoMemory};
use sp_words::{BinOp, Ty, UnOp};

/// A net with what the operator gives of a word.
pub(crate) fn unary(builder: &mut Builder, ty: Ty, op: UnOp, a: NetId) -> Result<NetId, NoMemory>
    requires { HasNet builder.old a (width_of ty) }
    ensures fills { OnOk result (Fills builder.old builder.new []) }
    ensures net { IfOk result (λ net. HasNet builder.new net (width_of ty)) }
    ensures word { IfOk result (λ net. (s : Signals) → RunsOn s builder.new.cells → (t : ℕ) → s.net t net ≡ one_word op ty (s.net t a)) }
{
    match op {
        UnOp::Neg => negative(builder, ty, a),
        UnOp::Not => invert(builder, ty, a),
    }
}

fn negative(builder: &mut Builder, ty: Ty, a: NetId) -> Result<NetId, NoMemory>
    requires { HasNet builder.old a (width_of ty) }
    ensures fills { OnOk result (Fills builder.old builder.new []) }
    ensures net { IfOk result (λ net. HasNet builder.new net (width_of ty)) }
    ensures word { IfOk result (λ net. (s : Signals) → RunsOn s builder.new.cells → (t : ℕ) → s.net t net ≡ one_word UnOp.Neg ty (s.net t a)) }
{
    let zero = constant(builder, ty.width(), 0)?;
    let net = operate(builder, ty, CellOp::Sub, zero, a)?;
    Ok(net)
}

/// A net that is 1 where the first word isn't less than the second one.
fn not_less(builder: &mut Builder, ty: Ty, a: NetId, b: NetId) -> Result<NetId, NoMemory>
    requires left { HasNet builder.old a (width_of ty) }
    requires right { HasNet builder.old b (width_of ty) }
    ensures fills { OnOk result (Fills builder.old builder.new []) }
    ensures net { IfOk result (λ net. HasNet builder.new net 1) }
    ensures word { IfOk result (λ net. (s : Signals) → RunsOn s builder.new.cells → (t : ℕ) → s.net t net ≡ bit (not (word_lt ty (s.net t a) (s.net t b)))) }
{
    let less = operate(builder, ty, CellOp::Lt, a, b)?;
    let net = invert(builder, Ty::Bit, less)?;
    Ok(net)
}

/// A net that is 1 where the words differ.
fn unequal(builder: &mut Builder, ty: Ty, a: NetId, b: NetId) -> Result<NetId, NoMemory>
    requires left { HasNet builder.old a (width_of ty) }
    requires right { HasNet builder.old b (width_of ty) }
    ensures fills { OnOk result (Fills builder.old builder.new []) }
    ensures net { IfOk result (λ net. HasNet builder.new net 1) }
    ensures word { IfOk result (λ net. (s : Signals) → RunsOn s builder.new.cells → (t : ℕ) → s.net t net ≡ bit (not (word_eq ty (s.net t a) (s.net t b)))) }
{
    let same = operate(builder, ty, CellOp::Eq, a, b)?;
    let net = invert(builder, Ty::Bit, same)?;
    Ok(net)
}

/// A net with what the operator gives of two words.
pub(crate) fn binary(
    builder: &mut Builder,
    ty: Ty,
    op: BinOp,
    a: NetId,
    b: NetId,
) -> Result<NetId, NoMemory>
    requires left { HasNet builder.old a (width_of ty) }
    requires right { HasNet builder.old b (width_of ty) }
    ensures fills { OnOk result (Fills builder.old builder.new []) }
    ensures net { IfOk result (λ net. HasNet builder.new net (if is_comparison op then 1 else width_of ty)) }
    ensures word { IfOk result (λ net. (s : Signals) → RunsOn s builder.new.cells → (t : ℕ) → s.net t net ≡ two_word op ty (s.net t a) (s.net t b)) }
{
    match op {
        BinOp::Add => operate(builder, ty, CellOp::Add, a, b),
        BinOp::Sub => operate(builder, ty, CellOp::Sub, a, b),
        BinOp::Mul => operate(builder, ty, CellOp::Mul, a, b),
        BinOp::Div => operate(builder, ty, CellOp::Div, a, b),
        BinOp::Rem => operate(builder, ty, CellOp::Rem, a, b),
        BinOp::And => operate(builder, ty, CellOp::And, a, b),
        BinOp::Or => operate(builder, ty, CellOp::Or, a, b),
        BinOp::Xor => operate(builder, ty, CellOp::Xor, a, b),
        BinOp::Min => operate(builder, ty, CellOp::Min, a, b),
        BinOp::Max => operate(builder, ty, CellOp::Max, a, b),
        BinOp::Lt => operate(builder, ty, CellOp::Lt, a, b),
        BinOp::Gt => operate(builder, ty, CellOp::Lt, b, a),
        BinOp::Le => not_less(builder, ty, b, a),
        BinOp::Ge => not_less(builder, ty, a, b),
        BinOp::Eq => operate(builder, ty, CellOp::Eq, a, b),
        BinOp::Ne => unequal(builder, ty, a, b),
    }
}

/// The direction of a shift.
fn side(left: bool) -> CellShift
    ensures { (ty : Ty) (a by : ℕ) → shift_word result ty a by ≡ shifted left ty a by }
{
    if left { CellShift::Shl } else { CellShift::Shr }
}

/// A net with the word shifted, to the left where the flag is set, by so many places.
pub(crate) fn shifted(
    builder: &mut Builder,
    ty: Ty,
    left: bool,
    a: NetId,
    by: u8,
) -> Result<NetId, NoMemory>
    requires operand { HasNet builder.old a (width_of ty) }
    requires places { by < 64 }
    ensures fills { OnOk result (Fills builder.old builder.new []) }
    ensures net { IfOk result (λ net. HasNet builder.new net (width_of ty)) }
    ensures word { IfOk result (λ net. (s : Signals) → RunsOn s builder.new.cells → (t : ℕ) → s.net t net ≡ shifted left ty (s.net t a) by) }
{
    let direction = side(left);
    let net = shift(builder, ty, direction, a, by)?;
    Ok(net)
}
