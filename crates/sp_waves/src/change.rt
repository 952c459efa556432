//! The values of variables, cycle by cycle.
ghost use Rattle.std.specs.Prelude.{◌≡◌, ◌++◌, ◌<◌, ◌+◌, ◌*◌, ◌^◌, map, OnOk, string_bytes};
ghost use Rattle.sp_waves.specs.Signals.{plain_signal};
ghost use Rattle.sp_waves.specs.Text as texts;

use crate::NoMemory;
use crate::identifier::push_identifier;
use crate::signal::Signal;
use std::fmt::Write;

#[tactic(auto, unfolding(crate::specs::Text::digits))]
fn push_digits(text: &mut String, width: u8, word: u64) -> Result<(), NoMemory>
    ensures { OnOk result (string_bytes text.new ≡ string_bytes text.old ++ texts.digits width word) }
{
    if width == 1 {
        write!(text, "{word}")
    } else {
        write!(text, "b{word:b} ")
    }
}

/// Appends the value that a variable takes.
fn push_value(text: &mut String, number: usize, width: u8, word: u64) -> Result<(), NoMemory>
    ensures { OnOk result (string_bytes text.new ≡ string_bytes text.old ++ texts.value number width word) }
{
    push_digits(text, width, word)?;
    push_identifier(text, number)?;
    text.push('\n')
}

/// Appends the values of the signals, which are numbered from 1.
fn push_values(text: &mut String, signals: &[Signal], words: &[u64]) -> Result<(), NoMemory>
    ensures { OnOk result (string_bytes text.new ≡ string_bytes text.old ++ texts.values 1 (map plain_signal signals.now) words.now) }
{
    for i in 0..signals.len() {
        let Some(word) = words.get(i) else {
            return Ok(());
        };
        let signal = &signals[i];
        push_value(text, i + 1, signal.width, *word)?;
    }
    Ok(())
}

/// Appends the value of a variable, if it has changed.
fn push_change(
    text: &mut String,
    number: usize,
    width: u8,
    before: u64,
    now: u64,
) -> Result<(), NoMemory>
    ensures { OnOk result (string_bytes text.new ≡ string_bytes text.old ++ texts.change number width before now) }
{
    if before == now {
        return Ok(());
    }
    push_value(text, number, width, now)
}

/// Appends the values of the signals that have changed.
fn push_changes(
    text: &mut String,
    signals: &[Signal],
    before: &[u64],
    now: &[u64],
) -> Result<(), NoMemory>
    ensures { OnOk result (string_bytes text.new ≡ string_bytes text.old ++ texts.changes 1 (map plain_signal signals.now) before.now now.now) }
{
    for i in 0..signals.len() {
        let Some(old_word) = before.get(i) else {
            return Ok(());
        };
        let Some(new_word) = now.get(i) else {
            return Ok(());
        };
        let signal = &signals[i];
        push_change(text, i + 1, signal.width, *old_word, *new_word)?;
    }
    Ok(())
}

/// Appends the line of a time.
#[tactic(auto, unfolding(crate::specs::Text::at_time))]
pub(crate) fn push_time(text: &mut String, time: u128) -> Result<(), NoMemory>
    ensures { OnOk result (string_bytes text.new ≡ string_bytes text.old ++ texts.at_time time) }
{
    writeln!(text, "#{time}")
}

#[tactic(auto, unfolding(crate::specs::Text::dump_begin))]
fn push_dump_begin(text: &mut String) -> Result<(), NoMemory>
    ensures { OnOk result (string_bytes text.new ≡ string_bytes text.old ++ texts.dump_begin) }
{
    text.push_str("$dumpvars\n")
}

#[tactic(auto, unfolding(crate::specs::Text::dump_end))]
fn push_dump_end(text: &mut String) -> Result<(), NoMemory>
    ensures { OnOk result (string_bytes text.new ≡ string_bytes text.old ++ texts.dump_end) }
{
    text.push_str("$end\n")
}

/// Appends cycle 0, with the values of all signals.
pub(crate) fn push_first_cycle(
    text: &mut String,
    signals: &[Signal],
    now: &[u64],
) -> Result<(), NoMemory>
    ensures { OnOk result (string_bytes text.new ≡ string_bytes text.old ++ texts.first_cycle (map plain_signal signals.now) now.now) }
{
    push_time(text, 0)?;
    push_dump_begin(text)?;
    push_value(text, 0, 1, 1)?;
    push_values(text, signals, now)?;
    push_dump_end(text)?;
    push_time(text, 5)?;
    push_value(text, 0, 1, 0)
}

/// Appends a later cycle, with the values that have changed since the one before it.
pub(crate) fn push_later_cycle(
    text: &mut String,
    signals: &[Signal],
    cycle: u64,
    before: &[u64],
    now: &[u64],
) -> Result<(), NoMemory>
    ensures { OnOk result (string_bytes text.new ≡ string_bytes text.old ++ texts.later_cycle (map plain_signal signals.now) cycle before.now now.now) }
{
    let begin = 10 * u128::from(cycle);
    push_time(text, begin)?;
    push_value(text, 0, 1, 1)?;
    push_changes(text, signals, before, now)?;
    push_time(text, begin + 5)?;
    push_value(text, 0, 1, 0)
}
