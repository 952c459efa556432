//! Laws of the operators. Each function does nothing: what it ensures is the law.

ghost use Rattle.std.specs.Prelude.{◌≡◌, ℕ, ◌<◌, ℤ, ◌+ℤ◌, ◌-ℤ◌, ◌*ℤ◌};
ghost use Rattle.sp_words.specs.declared.types.FixTy.{FixTy};
ghost use Rattle.sp_words.specs.declared.types.Ty.{Ty};
ghost use Rattle.sp_words.specs.Types.{fix_signed, fix_whole, fix_frac, frac_of};
ghost use Rattle.sp_words.specs.Words.{IsWord, value_of, wrap, word_add, word_sub, word_mul, word_div, word_rem, word_and, word_or, word_xor, word_min, word_max, word_shl, word_shr, word_not, word_cast};
ghost use Rattle.sp_words.specs.Laws.{GivesWords, IsCommutative, IsAssociative, IsAssociativeAt, KeepsWrapping, IsInRange, IsFloorDivision, IsDivision};

/// What an operator gives for words of a type is a word of the type.
pub fn operators_give_words()
    ensures sum { GivesWords word_add }
    ensures difference { GivesWords word_sub }
    ensures product { GivesWords word_mul }
    ensures quotient { GivesWords word_div }
    ensures remainder { GivesWords word_rem }
    ensures both { GivesWords word_and }
    ensures either { GivesWords word_or }
    ensures unlike { GivesWords word_xor }
    ensures least { GivesWords word_min }
    ensures greatest { GivesWords word_max }
    ensures turned { (ty : Ty) (a : ℕ) → IsWord ty (word_not ty a) }
    ensures shifted_left { (ty : Ty) (a by : ℕ) → IsWord ty (word_shl ty a by) }
    ensures shifted_right { (ty : Ty) (a by : ℕ) → IsWord ty (word_shr ty a by) }
    ensures cast { (from to : Ty) (a : ℕ) → IsWord to (word_cast from to a) }
{}

/// The order of the operands is free.
pub fn operators_commute()
    ensures sum { IsCommutative word_add }
    ensures product { IsCommutative word_mul }
    ensures both { IsCommutative word_and }
    ensures either { IsCommutative word_or }
    ensures unlike { IsCommutative word_xor }
    ensures least { IsCommutative word_min }
    ensures greatest { IsCommutative word_max }
{}

/// A chain of one operator may be grouped in any way. A product of numbers with fraction bits may not,
/// since each step rounds down.
pub fn operators_associate()
    ensures sum { IsAssociative word_add }
    ensures product { (ty : Ty) → frac_of ty ≡ 0 → IsAssociativeAt ty word_mul }
    ensures both { IsAssociative word_and }
    ensures either { IsAssociative word_or }
    ensures unlike { IsAssociative word_xor }
    ensures least { IsAssociative word_min }
    ensures greatest { IsAssociative word_max }
{}

/// A sum, a difference or a product of whole numbers may be wrapped at each step or once at the end.
pub fn wrapping_is_kept()
    ensures sum { (ty : Ty) → KeepsWrapping word_add ◌+ℤ◌ ty }
    ensures difference { (ty : Ty) → KeepsWrapping word_sub ◌-ℤ◌ ty }
    ensures product { (ty : Ty) → frac_of ty ≡ 0 → KeepsWrapping word_mul ◌*ℤ◌ ty }
{}

/// The values of a type are a range of whole numbers, each the value of one word.
pub fn values_are_a_range()
    ensures in_range { (ty : Ty) (w : ℕ) → IsWord ty w → IsInRange ty (value_of ty w) }
    ensures each_word { (ty : Ty) (w : ℕ) → IsWord ty w → wrap ty (value_of ty w) ≡ w }
    ensures each_value { (ty : Ty) (z : ℤ) → IsInRange ty z → value_of ty (wrap ty z) ≡ z }
    ensures wrapped { (ty : Ty) (z : ℤ) → IsWord ty (wrap ty z) }
{}

/// Floors, quotients and remainders are those of whole numbers.
pub fn divisions_leave_remainders()
    ensures down { (z : ℤ) (m : ℕ) → 0 < m → IsFloorDivision z m }
    ensures toward_zero { (z d : ℤ) → IsDivision z d }
{}

/// A fixed-point type is its sign and its bits before and after the point.
pub fn parts_make_the_type()
    ensures { (a b : FixTy) → fix_signed a ≡ fix_signed b → fix_whole a ≡ fix_whole b → fix_frac a ≡ fix_frac b → a ≡ b }
{}
