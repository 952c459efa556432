//! Names that statements give.

ghost use Rattle.std.specs.Prelude.{◌≡◌, ◌+◌, [], ◌∷◌, IfOk, OnOk, Some};
ghost use Rattle.sp_reader.specs.Plain.{plain_expr, plain_ident};
ghost use Rattle.sp_types.specs.Types.{type_of};
ghost use Rattle.sp_types.specs.Visible as shown;
ghost use Rattle.sp_typed.specs.Expressions as spec;
ghost use Rattle.sp_typed.specs.Named.{give};
ghost use Rattle.sp_typed.specs.Plain.{here_of, plain_symbol};

use crate::scope::{Scope, Symbol};
use crate::span::next;
use crate::types::type_of;
use sp_reader::{Ident, SynTy};
use sp_words::{Kind, Ty};
use std::alloc::{AllocError, Global};

/// A memory with these dimensions.
pub(crate) fn memory(kind: Kind, ty: SynTy, dims: Vec<u32>) -> Symbol
    ensures { plain_symbol result ≡ shown.memory kind (type_of ty) dims.items }
{
    Symbol::Memory {
        kind,
        ty: type_of(ty),
        dims,
    }
}

/// Gives a name to the next memory, whose number is answered.
pub(crate) fn declare_mem(
    alloc: Global,
    scope: &mut Scope,
    name: &Ident,
    symbol: Symbol,
) -> Result<u32, AllocError>
    ensures seen { OnOk result (here_of scope.new ≡ record (give (here_of scope.old) (plain_ident name.now).text (plain_symbol symbol) (here_of scope.old).mems) { mems = (here_of scope.old).mems + 1 }) }
    ensures number { IfOk result (λ n. n ≡ (here_of scope.old).mems) }
{
    let number = scope.mems;
    scope.give(alloc, &name.text, symbol, number)?;
    scope.mems = next(number)?;
    Ok(number)
}

/// Gives a name to the next value, of a type.
pub(crate) fn declare_val(
    alloc: Global,
    scope: &mut Scope,
    name: &Ident,
    ty: Ty,
) -> Result<u32, AllocError>
    ensures seen { OnOk result (here_of scope.new ≡ record (give (here_of scope.old) (plain_ident name.now).text (shown.value (Some ty)) (here_of scope.old).vals) { vals = (here_of scope.old).vals + 1 }) }
    ensures number { IfOk result (λ n. n ≡ (here_of scope.old).vals) }
{
    let number = scope.vals;
    scope.give(alloc, &name.text, Symbol::Value(Some(ty)), number)?;
    scope.vals = next(number)?;
    Ok(number)
}
