//! The loop that combines the elements of a part with those of an accumulator.
ghost use Rattle.std.specs.Prelude.{◌≡◌, ◌+◌, ◌++◌, [], List, map, length, IfOk, OnOk};
ghost use Rattle.sp_core.specs.Plain.{plain_node, plain_ops};
ghost use Rattle.sp_tree.specs.Expressions.{mem, dims};
ghost use Rattle.sp_tree.specs.Plain.{plain_mem};
ghost use Rattle.sp_sugar.specs.Combination.{element_loop, is_last_element};
ghost use Rattle.sp_sugar.specs.Operations.{code};
ghost use Rattle.sp_sugar.specs.Values.{no_sources};
ghost use Rattle.sp_operations.specs.Elements.{index_ops, value_code, element_word, element_end, element_all};

use crate::NoMemory;
use crate::combination::{is_last_element, operator_of, push_element_counters, push_indices};
use crate::expressions::push_code;
use crate::numbers::{dims_of, mem_number, type_of};
use crate::operations::{computes, literal_op, next_place, push_op, read_op, under, write_op};
use sp_core::{Node, Op, OpKind};
use sp_tree::{Comb, MemDecl};
use sp_words::Ty;
use std::alloc::Global;

/// Appends the read of an element, and tells where its word is.
#[tactic(auto, using(crate::proofs::ElementLemmas::value_is))]
fn push_value(
    alloc: Global,
    ops: &mut Vec<Op>,
    mems: &[MemDecl],
    counter: u32,
    dims: &[u32],
    part: u32,
    ty: Ty,
) -> Result<u32, NoMemory>
    ensures ops { OnOk result (plain_ops ops.new.items ≡ plain_ops ops.old.items ++ (value_code (map plain_mem mems.now) (length (plain_ops ops.old.items)) counter dims.now part ty).ops) }
    ensures word { IfOk result (λ place. place ≡ (value_code (map plain_mem mems.now) (length (plain_ops ops.old.items)) counter dims.now part ty).word) }
{
    let mut indices = Vec::new(alloc);
    push_indices(alloc, ops, &mut indices, counter, dims)?;
    push_op(ops, read_op(ty, mem_number(mems, part), indices))
}

/// Appends the combined word of an element, and tells where it is.
#[tactic(auto, unfolding(crate::specs::Elements::element_word))]
fn push_element_word(
    alloc: Global,
    ops: &mut Vec<Op>,
    word: u32,
    counter: u32,
    dims: &[u32],
    acc: u32,
    begun: u32,
    ty: Ty,
    comb: Comb,
) -> Result<u32, NoMemory>
    ensures ops { OnOk result (plain_ops ops.new.items ≡ plain_ops ops.old.items ++ element_word (length (plain_ops ops.old.items)) word counter dims.now acc begun ty comb) }
    ensures place { IfOk result (λ place. place ≡ length (plain_ops ops.old.items) + 1 + length (index_ops counter dims.now) + 2) }
{
    let has = push_op(ops, read_op(Ty::Bit, begun, Vec::new(alloc)))?;
    let mut indices = Vec::new(alloc);
    push_indices(alloc, ops, &mut indices, counter, dims)?;
    let old = push_op(ops, under(has, read_op(ty, acc, indices)))?;
    let operator = OpKind::Two(operator_of(comb));
    let both = push_op(ops, computes(operator, ty, vec![in alloc; old, word]?))?;
    push_op(
        ops,
        computes(OpKind::Mux, ty, vec![in alloc; has, both, word]?),
    )
}

/// Appends the test of the last element, and tells where its word is.
#[tactic(auto, using(crate::proofs::SourceLemmas::no_source))]
fn push_last_test(
    alloc: Global,
    ops: &mut Vec<Op>,
    mems: &[MemDecl],
    counter: u32,
    dims: &[u32],
) -> Result<u32, NoMemory>
    ensures ops { OnOk result (plain_ops ops.new.items ≡ plain_ops ops.old.items ++ (code (map plain_mem mems.now) no_sources (length (plain_ops ops.old.items)) (is_last_element counter dims.now)).ops) }
    ensures word { IfOk result (λ place. place ≡ (code (map plain_mem mems.now) no_sources (length (plain_ops ops.old.items)) (is_last_element counter dims.now)).word) }
{
    let test = is_last_element(alloc, counter, dims)?;
    push_code(alloc, ops, mems, &[], &test)
}

/// Appends the write of an element, and of what tells that the accumulator has begun, with the last element.
#[tactic(auto, unfolding(crate::specs::Elements::element_end))]
fn push_element_end(
    alloc: Global,
    ops: &mut Vec<Op>,
    mems: &[MemDecl],
    word: u32,
    counter: u32,
    dims: &[u32],
    acc: u32,
    begun: u32,
    ty: Ty,
) -> Result<(), NoMemory>
    ensures { OnOk result (plain_ops ops.new.items ≡ plain_ops ops.old.items ++ element_end (map plain_mem mems.now) (length (plain_ops ops.old.items)) word counter dims.now acc begun ty) }
{
    let mut places = Vec::new(alloc);
    push_indices(alloc, ops, &mut places, counter, dims)?;
    places.push(word)?;
    let _written = push_op(ops, write_op(ty, acc, places))?;
    let last = push_last_test(alloc, ops, mems, counter, dims)?;
    let one = push_op(ops, literal_op(alloc, Ty::Bit, 1))?;
    let begins = write_op(Ty::Bit, begun, vec![in alloc; one]?);
    let _begun = push_op(ops, under(last, begins))?;
    Ok(())
}

/// Appends the combination of the element whose word is at a place.
#[tactic(auto, using(crate::proofs::ElementLemmas::after_word))]
fn push_element(
    alloc: Global,
    ops: &mut Vec<Op>,
    mems: &[MemDecl],
    word: u32,
    counter: u32,
    dims: &[u32],
    acc: u32,
    begun: u32,
    ty: Ty,
    comb: Comb,
) -> Result<(), NoMemory>
    ensures { OnOk result (plain_ops ops.new.items ≡ plain_ops ops.old.items ++ element_all (map plain_mem mems.now) (length (plain_ops ops.old.items)) word counter dims.now acc begun ty comb) }
{
    let new = push_element_word(alloc, ops, word, counter, dims, acc, begun, ty, comb)?;
    push_element_end(alloc, ops, mems, new, counter, dims, acc, begun, ty)?;
    Ok(())
}

#[tactic(auto, using(crate::proofs::ElementLemmas::loop_is))]
fn element_node(
    alloc: Global,
    mems: &[MemDecl],
    counter: u32,
    dims: &[u32],
    part: u32,
    acc: u32,
    begun: u32,
    ty: Ty,
    comb: Comb,
) -> Result<Node, NoMemory>
    ensures { IfOk result (λ node. plain_node node ≡ element_loop (map plain_mem mems.now) counter dims.now part acc begun ty comb) }
{
    let mut ops = Vec::new(alloc);
    let word = push_value(alloc, &mut ops, mems, counter, dims, part, ty)?;
    let comb_at = next_place(&ops)?;
    push_element(
        alloc, &mut ops, mems, word, counter, dims, acc, begun, ty, comb,
    )?;
    let mut counters = Vec::new(alloc);
    push_element_counters(alloc, &mut counters, counter, dims)?;
    Ok(Node::Inner {
        counters,
        owned: Vec::new(alloc),
        ops,
        comb: Some(comb_at),
    })
}

/// The loop that combines the elements of a memory of the program into those of a memory of the core.
pub fn element_loop(
    alloc: Global,
    mems: &[MemDecl],
    counter: u32,
    part: u32,
    acc: u32,
    begun: u32,
    comb: Comb,
) -> Result<Node, NoMemory>
    ensures { IfOk result (λ node. plain_node node ≡ element_loop (map plain_mem mems.now) counter (dims (map plain_mem mems.now) part) part acc begun (mem (map plain_mem mems.now) part).ty comb) }
{
    let ty = type_of(mems, part);
    element_node(
        alloc,
        mems,
        counter,
        dims_of(mems, part),
        part,
        acc,
        begun,
        ty,
        comb,
    )
}
