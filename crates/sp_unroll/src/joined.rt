//! Words of lanes that are joined in pairs, and words that meet one after the other.

ghost use Rattle.std.specs.Prelude.{◌≡◌, ◌+◌, ◌++◌, ◌∷◌, [], ℕ, List, map, length, IfOk, OnOk};
ghost use Rattle.sp_core.specs.Plain.{plain_op, plain_ops};
ghost use Rattle.sp_lanes.specs.Combined.{met_ops};
ghost use Rattle.sp_lanes.specs.Joined as plain;
ghost use Rattle.sp_lanes.specs.Joined.{is_balanced, lane_words, join_ops, joined_by, joined_word, one_round, rounds};
ghost use Rattle.sp_unroll.specs.Bodies.{plain_body};
ghost use Rattle.sp_unroll.specs.Words.{plain_word, mask_or_zero};

use crate::NoMemory;
use crate::bodies::{Body, computes, live_op, next_place, number_at, push_op};
use sp_core::{Op, OpKind};
use sp_words::{BinOp, Ty};
use std::alloc::{AllocError, Global};

/// The place of a word of some lanes, the first and the last one of them; and of their mask, where that stands already.
#[derive(Clone, Copy, Debug, Drop)]
pub(crate) struct LaneWord {
    pub(crate) place: u32,
    pub(crate) first: u32,
    pub(crate) last: u32,
    pub(crate) mask: Option<u32>,
}

/// By what words are joined: the last counter of the controller, the operator and its type.
#[derive(Clone, Copy, Debug, Drop)]
pub(crate) struct Joiner {
    pub(crate) counter: u32,
    pub(crate) op: BinOp,
    pub(crate) ty: Ty,
}

/// Which operators give the same word in whatever order they are done.
pub(crate) fn is_balanced(op: BinOp, ty: Ty) -> bool
    ensures { result ≡ is_balanced op ty }
{
    match op {
        BinOp::Add => true,
        BinOp::And => true,
        BinOp::Or => true,
        BinOp::Xor => true,
        BinOp::Min => true,
        BinOp::Max => true,
        BinOp::Mul => ty.frac() == 0,
        _ => false,
    }
}

/// The words at a place of the core's body, one in each lane.
pub(crate) fn lane_words(
    alloc: Global,
    word: u32,
    lanes: &[Body],
) -> Result<Vec<LaneWord>, NoMemory>
    ensures { IfOk result (λ words. map plain_word words.items ≡ lane_words 0 word (map plain_body lanes.now)) }
{
    let mut words = Vec::new(alloc);
    let mut lane: u32 = 0;
    for body in lanes {
        words.push(LaneWord {
            place: number_at(&body.places, word),
            first: lane,
            last: lane,
            mask: Some(body.mask),
        })?;
        lane = lane.checked_add(1).ok_or(AllocError)?;
    }
    Ok(words)
}

/// Appends the operator on two words, and the choice between its word and the left one; tells where the choice stands.
fn push_join(
    alloc: Global,
    ops: &mut Vec<Op>,
    by: Joiner,
    mask: u32,
    left: u32,
    right: u32,
) -> Result<u32, NoMemory>
    ensures ops { OnOk result (plain_ops ops.new.items ≡ plain_ops ops.old.items ++ join_ops by.counter by.op by.ty (length (plain_ops ops.old.items)) mask left right) }
    ensures place { IfOk result (λ place. place ≡ length (plain_ops ops.old.items) + 1) }
{
    let word = computes(OpKind::Two(by.op), by.ty, vec![in alloc; left, right]?);
    let at = push_op(ops, word)?;
    let choice = computes(OpKind::Mux, by.ty, vec![in alloc; mask, at, left]?);
    let place = push_op(ops, choice)?;
    Ok(place)
}

/// Appends what joins two words of lanes, and tells the joined word.
#[tactic(auto, using(crate::proofs::JoinLemmas::word_some, crate::proofs::JoinLemmas::word_none))]
fn push_joined(
    alloc: Global,
    ops: &mut Vec<Op>,
    by: Joiner,
    left: LaneWord,
    right: LaneWord,
) -> Result<LaneWord, NoMemory>
    ensures ops { OnOk result (plain_ops ops.new.items ≡ plain_ops ops.old.items ++ joined_by by.counter by.op by.ty right.mask (length (plain_ops ops.old.items)) (plain_word left) (plain_word right)) }
    ensures word { IfOk result (λ word. plain_word word ≡ joined_word by.counter by.op by.ty (length (plain_ops ops.old.items)) (plain_word left) (plain_word right)) }
{
    match right.mask {
        Some(mask) => {
            let place = push_join(alloc, ops, by, mask, left.place, right.place)?;
            Ok(LaneWord {
                place,
                first: left.first,
                last: right.last,
                mask: None,
            })
        }
        None => {
            let live = live_op(alloc, by.counter, right.first, right.last);
            let mask = push_op(ops, live)?;
            let place = push_join(alloc, ops, by, mask, left.place, right.place)?;
            Ok(LaneWord {
                place,
                first: left.first,
                last: right.last,
                mask: None,
            })
        }
    }
}

/// Joins each two neighbours, and appends their words and a last one without a partner.
#[tactic(auto, using(crate::proofs::JoinLemmas::round_ops, crate::proofs::JoinLemmas::round_words))]
fn push_round(
    alloc: Global,
    ops: &mut Vec<Op>,
    by: Joiner,
    words: &[LaneWord],
    out: &mut Vec<LaneWord>,
) -> Result<(), NoMemory>
    ensures ops { OnOk result (plain_ops ops.new.items ≡ plain_ops ops.old.items ++ (one_round by.counter by.op by.ty (length (plain_ops ops.old.items)) (map plain_word words.now)).ops) }
    ensures words { OnOk result (map plain_word out.new.items ≡ map plain_word out.old.items ++ (one_round by.counter by.op by.ty (length (plain_ops ops.old.items)) (map plain_word words.now)).words) }
{
    let [left, others @ ..] = words else {
        return Ok(());
    };
    let [right, rest @ ..] = others else {
        out.push(*left)?;
        return Ok(());
    };
    let word = push_joined(alloc, ops, by, *left, *right)?;
    out.push(word)?;
    push_round(alloc, ops, by, rest, out)?;
    Ok(())
}

/// Joins words until one stands.
#[tactic(auto, using(crate::proofs::JoinLemmas::rounds_ops, crate::proofs::JoinLemmas::rounds_words))]
pub(crate) fn push_rounds(
    alloc: Global,
    ops: &mut Vec<Op>,
    by: Joiner,
    count: usize,
    words: &[LaneWord],
) -> Result<Vec<LaneWord>, NoMemory>
    ensures ops { OnOk result (plain_ops ops.new.items ≡ plain_ops ops.old.items ++ (rounds by.counter by.op by.ty count (length (plain_ops ops.old.items)) (map plain_word words.now)).ops) }
    ensures words { IfOk result (λ left. map plain_word left.items ≡ (rounds by.counter by.op by.ty count (length (plain_ops ops.old.items)) (map plain_word words.now)).words) }
{
    if count == 0 {
        return Vec::from_slice(alloc, words);
    }
    let mut joined = Vec::new(alloc);
    push_round(alloc, ops, by, words, &mut joined)?;
    let left = push_rounds(alloc, ops, by, count - 1, &joined)?;
    Ok(left)
}

/// The place of a word's mask.
fn mask_of(mask: Option<u32>) -> u32
    ensures { result ≡ mask_or_zero mask }
{
    match mask {
        Some(place) => place,
        None => 0,
    }
}

/// Appends the meetings of the word at a place with others, in order.
#[tactic(auto, using(crate::proofs::JoinLemmas::met_more))]
pub(crate) fn push_met(
    alloc: Global,
    ops: &mut Vec<Op>,
    by: Joiner,
    left: u32,
    words: &[LaneWord],
) -> Result<(), NoMemory>
    ensures { OnOk result (plain_ops ops.new.items ≡ plain_ops ops.old.items ++ met_ops by.counter by.op by.ty (length (plain_ops ops.old.items)) left (map plain_word words.now)) }
{
    let [word, rest @ ..] = words else {
        return Ok(());
    };
    let mask = mask_of(word.mask);
    let met = push_join(alloc, ops, by, mask, left, word.place)?;
    push_met(alloc, ops, by, met, rest)?;
    Ok(())
}
