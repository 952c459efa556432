//! The text of what a run leaves.
ghost use Rattle.std.specs.Prelude.{◌≡◌, ℕ, ◌++◌, ◌∷◌, [], map, OnOk, IfOk, string_bytes};
ghost use Rattle.std.specs.Global.{Vec};
ghost use Rattle.sp_words.specs.Decimal.{text_of};
ghost use Rattle.sp_words.specs.Ports.{plain_port, plain_ports};
ghost use Rattle.sp_top.specs.ResultText.{spaced_words, out_line, dram_line, lines_of, result_text, cycles_line, turns_line};

use sp_words::{NoMemory, Output, PortDecl, Ports, Ty, is_word, value_text};
use std::alloc::Global;
use std::fmt::Write;

// The exact decimal of a word. A word that isn't one of its type has none; a run leaves no such word.
fn word_text(alloc: Global, ty: Ty, word: u64) -> Result<String, NoMemory>
    ensures { IfOk result (λ text. string_bytes text ≡ text_of ty word) }
{
    if is_word(ty, word) {
        value_text(alloc, ty, word)
    } else {
        Err(NoMemory)
    }
}

// Appends a word after a blank.
fn push_word(alloc: Global, text: &mut String, ty: Ty, word: u64) -> Result<(), NoMemory>
    ensures { OnOk result (string_bytes text.new ≡ string_bytes text.old ++ (32 ∷ text_of ty word)) }
{
    let value = word_text(alloc, ty, word)?;
    write!(text, " {value}")
}

// Appends each word after a blank.
fn push_words(alloc: Global, text: &mut String, ty: Ty, words: &[u64]) -> Result<(), NoMemory>
    ensures { OnOk result (string_bytes text.new ≡ string_bytes text.old ++ spaced_words ty words.now) }
{
    for word in words {
        push_word(alloc, text, ty, *word)?;
    }
    Ok(())
}

// Appends the line of an output.
fn push_out(alloc: Global, text: &mut String, port: &PortDecl, word: u64) -> Result<(), NoMemory>
    ensures { OnOk result (string_bytes text.new ≡ string_bytes text.old ++ out_line (plain_port port.now) word) }
{
    let value = word_text(alloc, port.ty, word)?;
    writeln!(text, "out {} {value}", port.name)
}

// Appends the line of a DRAM.
fn push_dram(
    alloc: Global,
    text: &mut String,
    port: &PortDecl,
    words: &[u64],
) -> Result<(), NoMemory>
    ensures { OnOk result (string_bytes text.new ≡ string_bytes text.old ++ dram_line (plain_port port.now) words.now) }
{
    write!(text, "dram {}", port.name)?;
    push_words(alloc, text, port.ty, words)?;
    text.push('\n')
}

// Appends the lines of the outputs.
fn push_outs(
    alloc: Global,
    text: &mut String,
    ports: &[PortDecl],
    words: &[u64],
) -> Result<(), NoMemory>
    ensures { OnOk result (string_bytes text.new ≡ string_bytes text.old ++ lines_of out_line (map plain_port ports.now) words.now) }
{
    for i in 0..ports.len() {
        let Some(word) = words.get(i) else {
            return Ok(());
        };
        push_out(alloc, text, &ports[i], *word)?;
    }
    Ok(())
}

// Appends the lines of the DRAMs.
fn push_drams(
    alloc: Global,
    text: &mut String,
    ports: &[PortDecl],
    drams: &[Vec<u64>],
) -> Result<(), NoMemory>
    ensures { OnOk result (string_bytes text.new ≡ string_bytes text.old ++ lines_of dram_line (map plain_port ports.now) (map (λ (words : Vec ℕ). words.items) drams.now)) }
{
    for i in 0..ports.len() {
        let Some(words) = drams.get(i) else {
            return Ok(());
        };
        push_dram(alloc, text, &ports[i], words)?;
    }
    Ok(())
}

/// The result text of a run that was done in this cycle.
pub fn cycles_text(
    alloc: Global,
    ports: &Ports,
    output: &Output,
    cycles: u64,
) -> Result<String, NoMemory>
    ensures { IfOk result (λ text. string_bytes text ≡ result_text (plain_ports ports.now) output.now.outs.items (map (λ (words : Vec ℕ). words.items) output.now.drams.items) (cycles_line cycles)) }
{
    let mut text = String::new(alloc);
    push_outs(alloc, &mut text, &ports.outs, &output.outs)?;
    push_drams(alloc, &mut text, &ports.drams, &output.drams)?;
    writeln!(text, "cycles {cycles}")?;
    Ok(text)
}

/// The result text of a program that ended after so many turns.
pub fn turns_text(
    alloc: Global,
    ports: &Ports,
    output: &Output,
    turns: u64,
) -> Result<String, NoMemory>
    ensures { IfOk result (λ text. string_bytes text ≡ result_text (plain_ports ports.now) output.now.outs.items (map (λ (words : Vec ℕ). words.items) output.now.drams.items) (turns_line turns)) }
{
    let mut text = String::new(alloc);
    push_outs(alloc, &mut text, &ports.outs, &output.outs)?;
    push_drams(alloc, &mut text, &ports.drams, &output.drams)?;
    writeln!(text, "turns {turns}")?;
    Ok(text)
}
