//! What kind of operation it is, and how wide the words are that it takes.
ghost use Rattle.std.specs.Prelude.{◌≡◌, ◌+◌, ◌<◌, ◌^◌};
ghost use Rattle.sp_netlist.specs.Rules.{IsWidth};
ghost use Rattle.sp_pipe.specs.Values.{given_width, gives_word, is_access, taken_width, time_of, word_time};

use crate::part::{Act, PipeOp};
use sp_words::{BinOp, Ty};

pub(crate) fn is_access(act: Act) -> bool
    ensures { result ≡ is_access act }
{
    match act {
        Act::Read(_, _) | Act::Deq(_, _) | Act::Write | Act::Enq | Act::Reset => true,
        _ => false,
    }
}

pub(crate) fn gives_word(act: Act) -> bool
    ensures { result ≡ gives_word act }
{
    match act {
        Act::Write | Act::Enq | Act::Reset => false,
        _ => true,
    }
}

/// How many bits the word has that an operation gives.
pub(crate) fn given_width(act: Act, ty: Ty) -> u8
    ensures width { result ≡ given_width act ty }
    ensures is_width { IsWidth result }
{
    match act {
        Act::Two(BinOp::Lt)
        | Act::Two(BinOp::Le)
        | Act::Two(BinOp::Gt)
        | Act::Two(BinOp::Ge)
        | Act::Two(BinOp::Eq)
        | Act::Two(BinOp::Ne) => 1,
        Act::Cast(to) => to.width(),
        _ => ty.width(),
    }
}

/// How many bits the word has that an operation with so many operands takes at a place.
pub(crate) fn taken_width(act: Act, ty: Ty, count: usize, place: usize) -> u8
    ensures width { result ≡ taken_width act ty count place }
    ensures is_width { IsWidth result }
{
    match act {
        Act::Mux => { if place == 0 { 1 } else { ty.width() } }
        Act::Read(_, _) => 32,
        Act::Write => {
            if count > 0 && place == count - 1 {
                ty.width()
            } else {
                32
            }
        }
        _ => ty.width(),
    }
}

/// How many cycles after the issue of its group the word of an operation stands, whether or not it has a mask.
pub(crate) fn time_of(op: &PipeOp) -> u32
    requires { time_of op.now.act op.now.mask op.now.time < 2 ^ 32 }
    ensures { result ≡ time_of op.now.act op.now.mask op.now.time }
{
    match op.mask {
        None => word_time(op),
        Some(_) => match op.act {
            Act::Read(_, after) | Act::Deq(_, after) => op.time + after,
            _ => op.time,
        },
    }
}

/// How many cycles after the issue of its group what an operation gives stands where it has no mask.
pub(crate) fn word_time(op: &PipeOp) -> u32
    requires { word_time op.now.act op.now.time < 2 ^ 32 }
    ensures { result ≡ word_time op.now.act op.now.time }
{
    match op.act {
        Act::Given(_) | Act::Word(_) => 0,
        Act::Read(_, after) | Act::Deq(_, after) => op.time + after,
        _ => op.time,
    }
}
