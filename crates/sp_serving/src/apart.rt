//! Whether a scheme keeps two accesses apart.

ghost use Rattle.std.specs.Prelude.{◌≡◌, ◌&&◌, length};
ghost use Rattle.std.specs.Ordering.{int_eq};
ghost use Rattle.sp_bank.specs.Separation.{constants};
ghost use Rattle.sp_plan.specs.Groups.{have_one_linear_part};
ghost use Rattle.sp_serving.specs.Apart.{is_apart, is_kind_apart};
ghost use Rattle.sp_serving.specs.Served.{AreRanked};
ghost use Rattle.sp_words.specs.declared.kind.Kind.TheVariants.{LineBuf};

use crate::forms::have_one_linear_part;
use sp_affine::Form;
use sp_bank::{Scheme, apart};
use sp_words::Kind;

/// Whether two accesses with equal linear parts have different banks wherever their elements differ.
fn is_apart(scheme: &Scheme, f: &[Form], g: &[Form]) -> bool
    requires first { length f.now ≡ length scheme.now.alpha }
    requires second { length g.now ≡ length scheme.now.alpha }
    ensures { result ≡ is_apart scheme.now (constants f.now) (constants g.now) }
{
    let _banks = scheme.banks;
    apart(scheme, f, g)
}

/// Whether two accesses to a line buffer are of one row, up to what all of a group share.
fn is_one_row(row: &Form, other: &Form) -> bool
    ensures { result ≡ int_eq row.now.constant other.now.constant }
{
    row.constant == other.constant
}

/// Whether two accesses to a line buffer do, where their rows are one.
fn is_row_apart(scheme: &Scheme, f: &[Form], g: &[Form]) -> bool
    requires rank { length scheme.now.alpha ≡ 1 }
    requires first { length f.now ≡ 2 }
    requires second { length g.now ≡ 2 }
    ensures { result ≡ is_kind_apart scheme.now LineBuf f.now g.now }
{
    let [row, columns @ ..] = f else {
        return true;
    };
    let [other, others @ ..] = g else {
        return true;
    };
    !is_one_row(row, other) || is_apart(scheme, columns, others)
}

/// Whether two accesses to a memory of a kind do.
fn is_kind_apart(scheme: &Scheme, kind: Kind, f: &[Form], g: &[Form]) -> bool
    requires ranks { AreRanked kind (length f.now) (length scheme.now.alpha) }
    requires same { length g.now ≡ length f.now }
    ensures { result ≡ is_kind_apart scheme.now kind f.now g.now }
{
    match kind {
        Kind::LineBuf => is_row_apart(scheme, f, g),
        _ => is_apart(scheme, f, g),
    }
}

/// Whether two accesses by one port to a memory of a kind are of one group, and the scheme keeps them apart.
pub(crate) fn are_kept(scheme: &Scheme, kind: Kind, f: &[Form], g: &[Form]) -> bool
    requires ranks { AreRanked kind (length f.now) (length scheme.now.alpha) }
    requires same { length g.now ≡ length f.now }
    ensures { result ≡ (have_one_linear_part f.now g.now && is_kind_apart scheme.now kind f.now g.now) }
{
    have_one_linear_part(f, g) && is_kind_apart(scheme, kind, f, g)
}
