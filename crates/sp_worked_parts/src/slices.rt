//! A DRAM of 24 words, and a slice of it.
ghost use Rattle.std.specs.Prelude.{◌≡◌, ◌∷◌, [], ◌++◌, All, IfOk, OnOk, codes, string_bytes, count_by, filter_map};
ghost use Rattle.sp_words.specs.Types.{int_type};
ghost use Rattle.sp_netlist.specs.Cells.{dram_cell};
ghost use Rattle.sp_netlist.specs.Rules.{dram_name, is_dram};
ghost use Rattle.sp_netlist.specs.Draft.{Draft, IsDraft};
ghost use Rattle.sp_gates.specs.Nets.{HasNet};
ghost use Rattle.sp_slices.specs.declared.part.Move.{Move};

use sp_netlist::{Builder, Cell, NetId, NoMemory};
use sp_slices::Move;
use sp_words::Ty;
use std::alloc::Global;

fn name(alloc: Global) -> Result<String, NoMemory>
    ensures { IfOk result (λ name. string_bytes name ≡ codes "a") }
{
    String::from_str(alloc, "a")
}

/// Its size.
pub(crate) fn size(alloc: Global) -> Result<Vec<u32>, NoMemory>
    ensures { IfOk result (λ dims. dims.items ≡ 24 ∷ []) }
{
    let mut dims = Vec::new(alloc);
    dims.push(24)?;
    Ok(dims)
}

/// The DRAM, as the first one.
pub(crate) fn dram(alloc: Global, builder: &mut Builder) -> Result<(), NoMemory>
    requires none { count_by is_dram builder.old.cells ≡ 0 }
    requires no_name { filter_map dram_name builder.old.cells ≡ [] }
    ensures nets { OnOk result (builder.new.promised ≡ builder.old.promised) }
    ensures cells { OnOk result (builder.new.cells ≡ builder.old.cells ++ dram_cell 0 (codes "a") int_type (24 ∷ []) ∷ []) }
    ensures draft { OnOk result (IsDraft builder.new) }
{
    let name = name(alloc)?;
    let dims = size(alloc)?;
    builder.add(Cell::Dram(0, name, Ty::int(), dims))?;
    Ok(())
}

/// A slice of one dimension.
pub(crate) fn range(alloc: Global, from: NetId, until: NetId) -> Result<Vec<Move>, NoMemory>
    ensures { IfOk result (λ moves. moves.items ≡ Move.Range from until ∷ []) }
{
    let mut moves = Vec::new(alloc);
    moves.push(Move::Range(from, until))?;
    Ok(moves)
}

/// The first of some nets, or another one where there is none.
pub(crate) fn first_of(nets: &[NetId], other: NetId) -> NetId
    ensures { (d : Draft) → All (λ net. HasNet d net 32) nets.now → HasNet d other 32 → HasNet d result 32 }
{
    let [net, ..] = nets else {
        return other;
    };
    *net
}
