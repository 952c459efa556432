//! The first count of a program that is past its limit.

ghost use Rattle.std.specs.Prelude.{◌≡◌, ◌↔◌, ◌≤◌, [], map, IfOk, Some, None, Ok};
ghost use Rattle.sp_tree.specs.Counts.{lanes_in, pieces, copies_in};
ghost use Rattle.sp_tree.specs.Limits.{most_lanes, IsWithinLimits};
ghost use Rattle.sp_tree.specs.Plain.{plain_mem};
ghost use Rattle.sp_tree.specs.PlainProgram.{PlainProgram};
ghost use Rattle.sp_tree.specs.PlainTree.{plain_stmts};
ghost use Rattle.sp_tree.specs.Streams.{roomy_in};
ghost use Rattle.sp_tree.specs.Tallies.{nothing};
ghost use Rattle.sp_counts.specs.Copies.{copy_of};
ghost use Rattle.sp_counts.specs.Over.{parts_of, first_over};
ghost use Rattle.sp_counts.specs.Pieces.{piece_of};

use crate::NoMemory;
use crate::copies::{Copies, add_copies};
use crate::lanes::lanes_in;
use crate::nodes::node_count;
use crate::pieces::{Piece, add_pieces};
use crate::proper::add_roomy;
use crate::tally::Tally;
use crate::words::{all_operations, chip_words, copy_words, dram_words, greatest_run};
use sp_tree::{MemDecl, Stmt};
use std::alloc::Global;

/// What is counted.
#[derive(Clone, Copy, Debug, PartialEq, Eq, Hash)]
pub enum Which {
    /// Declarations, statements and expressions.
    Nodes,
    /// The lanes of a controller or a slice, times those of the controllers around it.
    Lanes,
    /// The operations of one run of statements, times its lanes.
    Body,
    /// All operations and transfers, times their lanes.
    Operations,
    /// Words on the chip.
    Words,
    /// Words on the chip, times their lanes, readers and stages.
    Copies,
    /// Words of DRAMs.
    Dram,
}

/// A count past its limit: the number, or the greatest of 64 bits where it is greater.
#[derive(Clone, Copy, Debug, PartialEq, Eq)]
pub struct Over {
    pub which: Which,
    pub count: u64,
}

const MOST_NODES: u64 = 20_000;

const MOST_LANES: u64 = 16;

const MOST_IN_ONE_RUN: u64 = 2_048;

const MOST_OPERATIONS: u64 = 8_192;

const MOST_WORDS: u64 = 4_194_304;

const MOST_COPIES: u64 = 16_777_216;

const MOST_DRAM_WORDS: u64 = 67_108_864;

fn program_pieces(alloc: Global, body: &[Stmt]) -> Result<Vec<Piece>, NoMemory>
    requires { lanes_in (plain_stmts body.now) 1 ≤ most_lanes }
    ensures { IfOk result (λ all. map piece_of all.items ≡ pieces (plain_stmts body.now) 1 nothing nothing) }
{
    let mut all = Vec::new(alloc);
    add_pieces(alloc, &mut all, body, 1, &Tally::new(alloc))?;
    Ok(all)
}

fn program_copies(alloc: Global, body: &[Stmt]) -> Result<Vec<Copies>, NoMemory>
    requires { lanes_in (plain_stmts body.now) 1 ≤ most_lanes }
    ensures { IfOk result (λ all. map copy_of all.items ≡ copies_in (plain_stmts body.now) 1 []) }
{
    let mut all = Vec::new(alloc);
    add_copies(alloc, &mut all, body, 1, &[])?;
    Ok(all)
}

fn roomy_fifos(alloc: Global, mems: &[MemDecl], body: &[Stmt]) -> Result<Vec<u32>, NoMemory>
    ensures { IfOk result (λ all. all.items ≡ roomy_in (map plain_mem mems.now) (plain_stmts body.now)) }
{
    let mut all = Vec::new(alloc);
    add_roomy(alloc, mems, &mut all, body)?;
    Ok(all)
}

fn exceeded(which: Which, count: u64) -> Result<Option<Over>, NoMemory>
    ensures { result ≡ Ok (Some (record { which = which; count = count })) }
{
    Ok(Some(Over { which, count }))
}

fn first_past(alloc: Global, mems: &[MemDecl], body: &[Stmt]) -> Result<Option<Over>, NoMemory>
    ensures { IfOk result (λ found. found ≡ first_over (parts_of (map plain_mem mems.now) (plain_stmts body.now))) }
{
    let nodes = node_count(alloc, mems, body)?;
    if nodes > MOST_NODES {
        return exceeded(Which::Nodes, nodes);
    }
    let lanes = lanes_in(body, 1);
    if lanes > MOST_LANES {
        return exceeded(Which::Lanes, lanes);
    }
    let pieces = program_pieces(alloc, body)?;
    let run = greatest_run(&pieces);
    if run > MOST_IN_ONE_RUN {
        return exceeded(Which::Body, run);
    }
    let operations = all_operations(&pieces);
    if operations > MOST_OPERATIONS {
        return exceeded(Which::Operations, operations);
    }
    let words = chip_words(mems, &roomy_fifos(alloc, mems, body)?);
    if words > MOST_WORDS {
        return exceeded(Which::Words, words);
    }
    let copies = copy_words(mems, &pieces, &program_copies(alloc, body)?);
    if copies > MOST_COPIES {
        return exceeded(Which::Copies, copies);
    }
    let dram = dram_words(mems);
    if dram > MOST_DRAM_WORDS {
        return exceeded(Which::Dram, dram);
    }
    Ok(None)
}

/// The first count that is past its limit, in the order of `Which`, of the programs with these memories and this
/// block; none where all are within their limits. The work is linear in the size of the program but for three
/// products: of the memories that are declared and the reads of all pieces, of the memories of a loop's body and the
/// uses of its stages, and of the FIFOs and stages of a Stream block.
pub fn first_over(alloc: Global, mems: &[MemDecl], body: &[Stmt]) -> Result<Option<Over>, NoMemory>
    ensures first { IfOk result (λ found. (p : PlainProgram) → p.mems ≡ map plain_mem mems.now → p.body ≡ plain_stmts body.now → found ≡ first_over p) }
    ensures within { IfOk result (λ found. (p : PlainProgram) → p.mems ≡ map plain_mem mems.now → p.body ≡ plain_stmts body.now → (found ≡ None) ↔ IsWithinLimits p) }
{
    first_past(alloc, mems, body)
}
