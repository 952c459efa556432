//! Names of memories, values and counters, by number.
ghost use Rattle.std.specs.Prelude.{◌≡◌, ◌++◌, map, string_bytes, slice_index_or, [], OnOk};
ghost use Rattle.sp_tree.specs.Plain.{plain_mem};
ghost use Rattle.sp_tree.specs.PlainProgram.{no_mem};
ghost use Rattle.sp_printer.specs.Names.{names_of, mem_name, val_name, counter_name};

use crate::NoMemory;
use sp_tree::{MemDecl, Program};

fn push_name(text: &mut String, names: &[String], number: u32) -> Result<(), NoMemory>
    ensures { OnOk result (string_bytes text.new ≡ string_bytes text.old ++ slice_index_or (map string_bytes names.now) number []) }
{
    match names.get(number as usize) {
        Some(name) => text.push_str(name),
        None => Ok(()),
    }
}

fn push_name_of(text: &mut String, mems: &[MemDecl], number: u32) -> Result<(), NoMemory>
    ensures { OnOk result (string_bytes text.new ≡ string_bytes text.old ++ (slice_index_or (map plain_mem mems.now) number no_mem).name) }
{
    match mems.get(number as usize) {
        Some(mem) => text.push_str(&mem.name),
        None => Ok(()),
    }
}

/// Appends the name of a memory.
pub(crate) fn push_mem_name(
    text: &mut String,
    program: &Program,
    number: u32,
) -> Result<(), NoMemory>
    ensures { OnOk result (string_bytes text.new ≡ string_bytes text.old ++ mem_name (names_of program.now) number) }
{
    push_name_of(text, program.mems(), number)
}

/// Appends the name of a value.
pub(crate) fn push_val_name(
    text: &mut String,
    program: &Program,
    number: u32,
) -> Result<(), NoMemory>
    ensures { OnOk result (string_bytes text.new ≡ string_bytes text.old ++ val_name (names_of program.now) number) }
{
    push_name(text, program.vals(), number)
}

/// Appends the name of a counter.
pub(crate) fn push_counter_name(
    text: &mut String,
    program: &Program,
    number: u32,
) -> Result<(), NoMemory>
    ensures { OnOk result (string_bytes text.new ≡ string_bytes text.old ++ counter_name (names_of program.now) number) }
{
    push_name(text, program.counters(), number)
}
