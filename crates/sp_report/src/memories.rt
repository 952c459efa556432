//! Lines of memories.
ghost use Rattle.std.specs.Prelude.{◌≡◌, ◌++◌, ◌&&◌, Some, map, not, string_bytes, OnOk};
ghost use Rattle.sp_bank.specs.Banking.{Banking};
ghost use Rattle.sp_core.specs.Around.{is_port_kind};
ghost use Rattle.sp_core.specs.Plain.{plain_mem};
ghost use Rattle.sp_plan.specs.Plain.{plain_mem_plan};
ghost use Rattle.sp_report.specs.Memories.{numbers_text, scheme_text, depth_text, duplicates_text, mem_plan_text, mem_line, has_line, mem_lines};

use crate::NoMemory;
use sp_bank::Scheme;
use sp_core::CoreMem;
use sp_plan::{MemPlan, has_banks};
use sp_words::Kind;

/// Appends numbers, each with a blank before it.
pub(crate) fn push_numbers(text: &mut String, numbers: &[u32]) -> Result<(), NoMemory>
    ensures { OnOk result (string_bytes text.new ≡ string_bytes text.old ++ numbers_text numbers.now) }
{
    for number in numbers {
        write!(text, " {number}")?;
    }
    Ok(())
}

#[tactic(auto, unfolding(crate::specs::Memories::scheme_text))]
fn push_some_scheme(text: &mut String, scheme: &Scheme) -> Result<(), NoMemory>
    ensures { OnOk result (string_bytes text.new ≡ string_bytes text.old ++ scheme_text (Some scheme.now)) }
{
    let banks = scheme.banks;
    let block = scheme.block;
    let hinge = scheme.hinge;
    write!(text, " banks {banks}")?;
    write!(text, " block {block}")?;
    text.push_str(" alpha")?;
    push_numbers(text, scheme.alpha.as_slice())?;
    write!(text, " hinge {hinge}")?;
    Ok(())
}

#[tactic(auto, unfolding(crate::specs::Memories::scheme_text))]
fn push_scheme(text: &mut String, scheme: &Option<Scheme>) -> Result<(), NoMemory>
    ensures { OnOk result (string_bytes text.new ≡ string_bytes text.old ++ scheme_text scheme.now) }
{
    match scheme {
        None => text.push_str(" serial"),
        Some(scheme) => push_some_scheme(text, scheme),
    }
}

#[tactic(auto, unfolding(crate::specs::Memories::depth_text))]
fn push_depth(text: &mut String, depth: u32) -> Result<(), NoMemory>
    ensures { OnOk result (string_bytes text.new ≡ string_bytes text.old ++ depth_text depth) }
{
    write!(text, " depth {depth}")
}

#[tactic(auto, unfolding(crate::specs::Memories::duplicates_text))]
fn push_duplicates(text: &mut String, duplicates: u32) -> Result<(), NoMemory>
    ensures { OnOk result (string_bytes text.new ≡ string_bytes text.old ++ duplicates_text duplicates) }
{
    write!(text, " duplicates {duplicates}")
}

#[tactic(auto, unfolding(crate::specs::Memories::mem_plan_text))]
fn push_mem_plan(text: &mut String, banked: bool, plan: &MemPlan) -> Result<(), NoMemory>
    ensures { OnOk result (string_bytes text.new ≡ string_bytes text.old ++ mem_plan_text banked (plain_mem_plan plan.now)) }
{
    if !banked {
        return push_depth(text, plan.depth);
    }
    push_scheme(text, &plan.scheme)?;
    push_depth(text, plan.depth)?;
    push_duplicates(text, plan.duplicates)?;
    Ok(())
}

#[tactic(auto, unfolding(crate::specs::Memories::mem_line))]
fn push_mem(text: &mut String, number: usize, mem: &CoreMem, plan: &MemPlan) -> Result<(), NoMemory>
    ensures { OnOk result (string_bytes text.new ≡ string_bytes text.old ++ mem_line number (plain_mem mem.now) (plain_mem_plan plan.now)) }
{
    write!(text, "mem {number} ")?;
    text.push_str(&mem.name)?;
    push_mem_plan(text, has_banks(mem.kind), plan)?;
    text.push_str("\n")?;
    Ok(())
}

fn is_port(kind: Kind) -> bool
    ensures { result ≡ is_port_kind kind }
{
    match kind {
        Kind::ArgIn => true,
        Kind::ArgOut => true,
        _ => false,
    }
}

/// Whether a memory stands in the program's text, on the chip.
fn has_line(mem: &CoreMem) -> bool
    ensures { result ≡ has_line (plain_mem mem.now) }
{
    mem.written && !is_port(mem.kind)
}

/// Appends the lines of memories, by what is planned of them.
pub(crate) fn push_mems(
    text: &mut String,
    mems: &[CoreMem],
    plans: &[MemPlan],
) -> Result<(), NoMemory>
    ensures { OnOk result (string_bytes text.new ≡ string_bytes text.old ++ mem_lines 0 (map plain_mem mems.now) (map plain_mem_plan plans.now)) }
{
    let mut number = 0;
    let mut left = plans;
    for mem in mems {
        let [plan, rest @ ..] = left else {
            return Ok(());
        };
        if has_line(mem) {
            push_mem(text, number, mem, plan)?;
            number += 1;
        }
        left = rest;
    }
    Ok(())
}
