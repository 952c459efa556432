//! Lists of one and two accesses.
ghost use Rattle.std.specs.Prelude.{◌≡◌, [], ◌∷◌, IfOk};
ghost use Rattle.sp_worked_parts.specs.Touches.{IsOne, AreTwo};

use sp_mem::Touch;
use sp_netlist::{NetId, NoMemory};
use std::alloc::Global;

/// One index.
pub(crate) fn index(alloc: Global, net: NetId) -> Result<Vec<NetId>, NoMemory>
    ensures { IfOk result (λ nets. nets.items ≡ net ∷ []) }
{
    let mut nets = Vec::new(alloc);
    nets.push(net)?;
    Ok(nets)
}

/// A row and a column.
pub(crate) fn indices(alloc: Global, row: NetId, column: NetId) -> Result<Vec<NetId>, NoMemory>
    ensures { IfOk result (λ nets. nets.items ≡ row ∷ column ∷ []) }
{
    let mut nets = Vec::new(alloc);
    nets.push(row)?;
    nets.push(column)?;
    Ok(nets)
}

/// One access.
pub(crate) fn one_touch(
    alloc: Global,
    enable: NetId,
    index: Vec<NetId>,
    word: NetId,
) -> Result<Vec<Touch>, NoMemory>
    ensures { IfOk result (λ list. IsOne enable index.items word list.items) }
{
    let mut list = Vec::new(alloc);
    list.push(Touch {
        enable,
        index,
        copy: None,
        duplicate: 0,
        tap: 0,
        word,
    })?;
    Ok(list)
}

/// Two accesses, each of a duplicate of its own.
pub(crate) fn two_touches(
    alloc: Global,
    enable: NetId,
    index: Vec<NetId>,
    word: NetId,
    second_index: Vec<NetId>,
    second_word: NetId,
) -> Result<Vec<Touch>, NoMemory>
    ensures { IfOk result (λ list. AreTwo enable index.items word second_index.items second_word list.items) }
{
    let mut list = Vec::new(alloc);
    list.push(Touch {
        enable,
        index,
        copy: None,
        duplicate: 0,
        tap: 0,
        word,
    })?;
    list.push(Touch {
        enable,
        index: second_index,
        copy: None,
        duplicate: 1,
        tap: 1,
        word: second_word,
    })?;
    Ok(list)
}
