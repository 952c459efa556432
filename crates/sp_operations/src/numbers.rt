//! The memories of a core, by number, and the registers that are added.
ghost use Rattle.std.specs.Prelude.{◌≡◌, ◌≤◌, ◌++◌, map, IfOk, OnOk, if◌then◌else◌};
ghost use Rattle.sp_tree.specs.Expressions.{mem, dims};
ghost use Rattle.sp_tree.specs.Meaning.{is_dram};
ghost use Rattle.sp_tree.specs.Plain.{plain_mem};
ghost use Rattle.sp_core.specs.Plain as core;
ghost use Rattle.sp_sugar.specs.Numbers.{mem_number, dram_number, written_mem, written_mems, added_register, begun_register, state_register, crossing_register};

use crate::NoMemory;
use sp_core::CoreMem;
use sp_tree::MemDecl;
use sp_words::{Kind, Ty};
use std::alloc::Global;

fn is_dram(kind: Kind) -> bool
    ensures { result ≡ is_dram kind }
{
    match kind {
        Kind::Dram => true,
        _ => false,
    }
}

fn one_if(is: bool) -> u32
    ensures value { result ≡ (if is then 1 else 0) }
    ensures bound { result ≤ 1 }
{
    if is { 1 } else { 0 }
}

/// The number of a memory in the core.
#[tactic(auto, using(crate::proofs::NumberLemmas::one_more))]
pub fn mem_number(mems: &[MemDecl], m: u32) -> u32
    ensures { result ≡ mem_number (map plain_mem mems.now) m }
{
    let mut number = 0;
    for i in 0..m {
        let Some(mem) = mems.get(i as usize) else {
            return number;
        };
        number += one_if(!is_dram(mem.kind));
    }
    number
}

/// The number of a DRAM among the DRAMs.
#[tactic(auto, using(crate::proofs::NumberLemmas::one_more))]
pub fn dram_number(mems: &[MemDecl], m: u32) -> u32
    ensures { result ≡ dram_number (map plain_mem mems.now) m }
{
    let mut number = 0;
    for i in 0..m {
        let Some(mem) = mems.get(i as usize) else {
            return number;
        };
        number += one_if(is_dram(mem.kind));
    }
    number
}

/// The kind of a memory; a register where there is none of that number.
pub(crate) fn kind_of(mems: &[MemDecl], m: u32) -> Kind
    ensures { result ≡ (mem (map plain_mem mems.now) m).kind }
{
    match mems.get(m as usize) {
        Some(mem) => mem.kind,
        None => Kind::Reg,
    }
}

/// The type of its words.
pub(crate) fn type_of(mems: &[MemDecl], m: u32) -> Ty
    ensures { result ≡ (mem (map plain_mem mems.now) m).ty }
{
    match mems.get(m as usize) {
        Some(mem) => mem.ty,
        None => Ty::Bit,
    }
}

/// Its dimensions.
pub(crate) fn dims_of(mems: &[MemDecl], m: u32) -> &[u32]
    ensures { result.now ≡ dims (map plain_mem mems.now) m }
{
    match mems.get(m as usize) {
        Some(mem) => &mem.dims,
        None => &[],
    }
}

/// The word that it begins with.
pub(crate) fn start_of(mems: &[MemDecl], m: u32) -> Option<u64>
    ensures { result ≡ (mem (map plain_mem mems.now) m).start }
{
    match mems.get(m as usize) {
        Some(mem) => mem.start,
        None => None,
    }
}

fn written_mem(alloc: Global, mem: &MemDecl) -> Result<CoreMem, NoMemory>
    ensures { IfOk result (λ m. core.plain_mem m ≡ written_mem (plain_mem mem.now)) }
{
    Ok(CoreMem {
        name: String::from_str(alloc, &mem.name)?,
        kind: mem.kind,
        ty: mem.ty,
        dims: Vec::from_slice(alloc, &mem.dims)?,
        start: mem.start,
        written: true,
    })
}

/// Appends the memories of the text, without its DRAMs.
pub fn push_written(alloc: Global, out: &mut Vec<CoreMem>, mems: &[MemDecl]) -> Result<(), NoMemory>
    ensures { OnOk result (map core.plain_mem out.new.items ≡ map core.plain_mem out.old.items ++ written_mems (map plain_mem mems.now)) }
{
    for mem in mems {
        if !is_dram(mem.kind) {
            out.push(written_mem(alloc, mem)?)?;
        }
    }
    Ok(())
}

fn register(alloc: Global, name: &str, ty: Ty, start: Option<u64>) -> Result<CoreMem, NoMemory>
    ensures { IfOk result (λ m. core.plain_mem m ≡ added_register name.now ty start) }
{
    Ok(CoreMem {
        name: String::from_str(alloc, name)?,
        kind: Kind::Reg,
        ty,
        dims: Vec::new(alloc),
        start,
        written: false,
    })
}

/// Whether an accumulator has begun.
pub fn begun_register(alloc: Global) -> Result<CoreMem, NoMemory>
    ensures { IfOk result (λ m. core.plain_mem m ≡ begun_register) }
{
    register(alloc, "begun", Ty::Bit, Some(0))
}

/// The state of an FSM.
pub fn state_register(alloc: Global, ty: Ty) -> Result<CoreMem, NoMemory>
    ensures { IfOk result (λ m. core.plain_mem m ≡ state_register ty) }
{
    register(alloc, "state", ty, None)
}

/// A word that crosses to another stage.
pub fn crossing_register(alloc: Global, ty: Ty) -> Result<CoreMem, NoMemory>
    ensures { IfOk result (λ m. core.plain_mem m ≡ crossing_register ty) }
{
    register(alloc, "crossing", ty, None)
}
