//! The text of a program.
ghost use Rattle.std.specs.Prelude.{◌≡◌, ◌≤◌, ◌++◌, IfOk, OnOk, length, string_bytes};
ghost use Rattle.sp_gen.specs.Text.{dram_line, tiles_line, sram_line, tile_range, load_line, store_line, made_line, part_line, whole_line, head_lines, tile_lines, part_lines, last_lines, text_of, program_text};

use crate::NoMemory;
use crate::draws::Draws;
use crate::numbers::{Combiner, Numbers};
use std::alloc::Global;

#[tactic(auto, unfolding(crate::specs::Text::dram_line))]
fn push_dram(text: &mut String, name: &str, words: u64) -> Result<(), NoMemory>
    ensures { OnOk result (string_bytes text.new ≡ string_bytes text.old ++ dram_line name.now words) }
{
    writeln!(text, "val {name} = DRAM[Int]({words})")
}

#[tactic(auto, unfolding(crate::specs::Text::tiles_line))]
fn push_tiles(text: &mut String, tiles: u64) -> Result<(), NoMemory>
    ensures { OnOk result (string_bytes text.new ≡ string_bytes text.old ++ tiles_line tiles) }
{
    writeln!(text, "  Reduce(acc)({tiles} by 1){{ t =>")
}

#[tactic(auto, unfolding(crate::specs::Text::sram_line))]
fn push_sram(text: &mut String, name: &str, tile: u64) -> Result<(), NoMemory>
    ensures { OnOk result (string_bytes text.new ≡ string_bytes text.old ++ sram_line name.now tile) }
{
    writeln!(text, "    val {name} = SRAM[Int]({tile})")
}

#[tactic(auto, unfolding(crate::specs::Text::tile_range))]
fn push_range(text: &mut String, tile: u64) -> Result<(), NoMemory>
    ensures { OnOk result (string_bytes text.new ≡ string_bytes text.old ++ tile_range tile) }
{
    write!(text, "(t * {tile}::t * {tile} + {tile})")
}

#[tactic(auto, unfolding(crate::specs::Text::load_line))]
fn push_load(text: &mut String, tile: u64) -> Result<(), NoMemory>
    ensures { OnOk result (string_bytes text.new ≡ string_bytes text.old ++ load_line tile) }
{
    text.push_str("    ta load a")?;
    push_range(text, tile)?;
    writeln!(text)
}

#[tactic(auto, unfolding(crate::specs::Text::store_line))]
fn push_store(text: &mut String, tile: u64) -> Result<(), NoMemory>
    ensures { OnOk result (string_bytes text.new ≡ string_bytes text.old ++ store_line tile) }
{
    text.push_str("    b")?;
    push_range(text, tile)?;
    text.push_str(" store tb\n")
}

#[tactic(auto, unfolding(crate::specs::Text::made_line))]
fn push_made(text: &mut String, tile: u64, lanes: u64, offset: u64) -> Result<(), NoMemory>
    ensures { OnOk result (string_bytes text.new ≡ string_bytes text.old ++ made_line tile lanes offset) }
{
    writeln!(
        text,
        "    Foreach({tile} by 1 par {lanes}){{ i => tb(i) = ta(i) * 3 + {offset} }}"
    )
}

#[tactic(auto, unfolding(crate::specs::Text::part_line))]
fn push_part(text: &mut String, tile: u64, lanes: u64, combiner: Combiner) -> Result<(), NoMemory>
    ensures { OnOk result (string_bytes text.new ≡ string_bytes text.old ++ part_line tile lanes combiner) }
{
    writeln!(
        text,
        "    Reduce(part)({tile} by 1 par {lanes}){{ i => tb(i) }}{combiner}"
    )
}

#[tactic(auto, unfolding(crate::specs::Text::whole_line))]
fn push_whole(text: &mut String, combiner: Combiner) -> Result<(), NoMemory>
    ensures { OnOk result (string_bytes text.new ≡ string_bytes text.old ++ whole_line combiner) }
{
    writeln!(text, "  }}{combiner}")
}

#[tactic(auto, unfolding(crate::specs::Text::head_lines))]
fn push_head(text: &mut String, words: u64, tiles: u64) -> Result<(), NoMemory>
    ensures { OnOk result (string_bytes text.new ≡ string_bytes text.old ++ head_lines words tiles) }
{
    push_dram(text, "a", words)?;
    push_dram(text, "b", words)?;
    text.push_str("val y = ArgOut[Int]\n")?;
    text.push_str("Accel {\n")?;
    text.push_str("  val acc = Reg[Int](0)\n")?;
    push_tiles(text, tiles)
}

#[tactic(auto, unfolding(crate::specs::Text::tile_lines))]
fn push_tile(text: &mut String, tile: u64, lanes: u64, offset: u64) -> Result<(), NoMemory>
    ensures { OnOk result (string_bytes text.new ≡ string_bytes text.old ++ tile_lines tile lanes offset) }
{
    push_sram(text, "ta", tile)?;
    push_sram(text, "tb", tile)?;
    push_load(text, tile)?;
    push_made(text, tile, lanes, offset)?;
    push_store(text, tile)
}

#[tactic(auto, unfolding(crate::specs::Text::part_lines))]
fn push_parts(text: &mut String, tile: u64, lanes: u64, combiner: Combiner) -> Result<(), NoMemory>
    ensures { OnOk result (string_bytes text.new ≡ string_bytes text.old ++ part_lines tile lanes combiner) }
{
    text.push_str("    val part = Reg[Int](0)\n")?;
    push_part(text, tile, lanes, combiner)?;
    writeln!(text, "    part")
}

#[tactic(auto, unfolding(crate::specs::Text::last_lines))]
fn push_last(text: &mut String, combiner: Combiner) -> Result<(), NoMemory>
    ensures { OnOk result (string_bytes text.new ≡ string_bytes text.old ++ last_lines combiner) }
{
    push_whole(text, combiner)?;
    text.push_str("  y := acc\n")?;
    writeln!(text, "}}")
}

/// The text of the program of these numbers.
#[tactic(auto, unfolding(crate::specs::Text::text_of))]
fn text_of(alloc: Global, numbers: Numbers) -> Result<String, NoMemory>
    requires tiles { numbers.tiles ≤ 32 }
    requires tile { numbers.tile ≤ 256 }
    ensures { IfOk result (λ text. string_bytes text ≡ text_of numbers) }
{
    let mut text = String::new(alloc);
    let words = numbers.tiles * numbers.tile;
    push_head(&mut text, words, numbers.tiles)?;
    push_tile(&mut text, numbers.tile, numbers.lanes, numbers.offset)?;
    push_parts(&mut text, numbers.tile, numbers.lanes, numbers.combiner)?;
    push_last(&mut text, numbers.combiner)?;
    Ok(text)
}

/// The text of the program of a number.
pub fn program_text(alloc: Global, number: u32) -> Result<String, NoMemory>
    ensures text { IfOk result (λ text. string_bytes text ≡ program_text number) }
    ensures short { IfOk result (λ text. length (string_bytes text) ≤ 1048576) }
{
    let mut draws = Draws {
        state: u64::from(number),
    };
    let text = text_of(alloc, draws.numbers())?;
    Ok(text)
}
