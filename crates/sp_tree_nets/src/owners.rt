//! What a tree hands on of its owners: how its loops turn, and where its FSMs keep their states.
ghost use Rattle.std.specs.Prelude.{◌≡◌, [], ◌∷◌, ◌++◌, IfOk, OnOk, None};
ghost use Rattle.sp_tree_handed.specs.Owners.{keeping};

use sp_list_circuits::Turns;
use sp_netlist::{NetId, NoMemory};
use sp_tree_handed::{Keeping, LoopTurns, TreeOwners};
use std::alloc::Global;

/// There is no loop and no FSM.
pub(crate) fn no_owners(alloc: Global) -> TreeOwners
    ensures turns { result.turns.items ≡ [] }
    ensures kept { result.kept.items ≡ [] }
{
    TreeOwners {
        turns: Vec::new(alloc),
        kept: Vec::new(alloc),
    }
}

/// Further loops, behind those before.
fn add_turns(all: &mut Vec<LoopTurns>, more: Vec<LoopTurns>) -> Result<(), NoMemory>
    ensures { OnOk result (all.new.items ≡ all.old.items ++ more.items) }
{
    for turning in more {
        all.push(turning)?;
    }
    Ok(())
}

/// Further keepings, behind those before.
fn add_kept(all: &mut Vec<Keeping>, more: &[Keeping]) -> Result<(), NoMemory>
    ensures { OnOk result (all.new.items ≡ all.old.items ++ more.now) }
{
    for index in 0..more.len() {
        all.push(more[index])?;
    }
    Ok(())
}

/// Those of one part, and behind them those of another.
pub(crate) fn both_owners(one: TreeOwners, other: TreeOwners) -> Result<TreeOwners, NoMemory>
    ensures turns { IfOk result (λ both. both.turns.items ≡ one.turns.items ++ other.turns.items) }
    ensures kept { IfOk result (λ both. both.kept.items ≡ one.kept.items ++ other.kept.items) }
{
    let TreeOwners {
        mut turns,
        mut kept,
    } = one;
    let TreeOwners {
        turns: more,
        kept: others,
    } = other;
    add_turns(&mut turns, more)?;
    add_kept(&mut kept, &others)?;
    Ok(TreeOwners { turns, kept })
}

/// An FSM keeps its state where its first state and where its next state is over, and behind that stand those of its body.
pub(crate) fn machine_owners(
    alloc: Global,
    state: u32,
    first: &Turns,
    next: &Turns,
    body: TreeOwners,
) -> Result<TreeOwners, NoMemory>
    ensures turns { IfOk result (λ all. all.turns.items ≡ body.turns.items) }
    ensures kept { IfOk result (λ all. all.kept.items ≡ (keeping state first.now.child.done first.now.word None ∷ keeping state next.now.child.done next.now.word None ∷ []) ++ body.kept.items) }
{
    let TreeOwners {
        turns,
        kept: inside,
    } = body;
    let mut kept = Vec::new(alloc);
    kept.push(Keeping {
        mem: state,
        done: first.child.done,
        word: first.word,
        copy: None,
    })?;
    kept.push(Keeping {
        mem: state,
        done: next.child.done,
        word: next.word,
        copy: None,
    })?;
    add_kept(&mut kept, &inside)?;
    Ok(TreeOwners { turns, kept })
}

/// How a loop turns. `firsts` are the nets that are 1 in the first cycles of its slots.
pub(crate) fn loop_turns(
    alloc: Global,
    start: NetId,
    owned: &[u32],
    firsts: &[NetId],
) -> Result<LoopTurns, NoMemory>
    ensures start { IfOk result (λ turns. turns.start ≡ start) }
    ensures owned { IfOk result (λ turns. turns.owned.items ≡ owned.now) }
    ensures firsts { IfOk result (λ turns. turns.firsts.items ≡ firsts.now) }
{
    let owned = Vec::from_slice(alloc, owned)?;
    let firsts = Vec::from_slice(alloc, firsts)?;
    Ok(LoopTurns {
        start,
        owned,
        firsts,
    })
}

/// How a loop turns itself, and behind it what its stages hand on.
pub(crate) fn loop_owners(
    alloc: Global,
    own: LoopTurns,
    inside: TreeOwners,
) -> Result<TreeOwners, NoMemory>
    ensures turns { IfOk result (λ all. all.turns.items ≡ own ∷ inside.turns.items) }
    ensures kept { IfOk result (λ all. all.kept.items ≡ inside.kept.items) }
{
    let TreeOwners { turns: more, kept } = inside;
    let mut turns = Vec::new(alloc);
    turns.push(own)?;
    add_turns(&mut turns, more)?;
    Ok(TreeOwners { turns, kept })
}
