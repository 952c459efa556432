//! Words that a command line may have: a verb, a name, and perhaps a second name.
ghost use Rattle.std.specs.Prelude.{◌≡◌, ◌↔◌, ◌⊎◌, Some, None, IsTrue, IfOk, IfSome, IsNone, codes, length, map, option_map, All, string_bytes};
ghost use Rattle.clap.specs.Words.{app_of, first_value, found_of};
ghost use Rattle.sp_command.specs.Commands.{IsFileWord};
ghost use Rattle.sp_command.specs.Said.{words_of};
ghost use Rattle.sp_command.specs.Table.{table};

use crate::NoMemory;
use clap::error::ErrorKind;
use clap::{Arg, ArgMatches, Command as Table};
use std::alloc::{AllocError, Global};

/// The words of a command line.
#[derive(Clone, Copy, Debug)]
pub(crate) struct Said<'a> {
    pub(crate) verb: &'a str,
    pub(crate) first: &'a str,
    pub(crate) second: Option<&'a str>,
}

/// Whether a word names a file: it isn't empty and doesn't begin with `-`.
fn is_file_word(word: &str) -> bool
    ensures { IsTrue result ↔ IsFileWord word.now }
{
    match word.as_bytes() {
        [] => false,
        [first, ..] => *first != b'-',
    }
}

/// Whether each word does.
fn are_file_words(words: &[String]) -> bool
    ensures { IsTrue result ↔ All (λ word. IsFileWord (string_bytes word)) words.now }
{
    for word in words {
        if !is_file_word(word.as_str()) {
            return false;
        }
    }
    true
}

/// The table of the parser.
fn table<'a>(alloc: Global) -> Result<Table<'a>, NoMemory>
    ensures { IfOk result (λ t. app_of t ≡ table) }
{
    let bare = Table::new(alloc, "spatialc")
        .no_binary_name(true)
        .disable_help_flag(true)
        .disable_version_flag(true);
    let verb = Arg::new(alloc, "verb").required(true);
    let first = Arg::new(alloc, "first").required(true);
    let second = Arg::new(alloc, "second");
    bare.arg(verb)?.arg(first)?.arg(second)
}

/// The words that the parser found, where it found the first two.
fn found_in<'a>(matches: &ArgMatches<'a>) -> Option<Said<'a>>
    ensures some { IfSome result (λ said. (first_value (found_of matches.now) (codes "verb") ≡ Some said.verb.now) × (first_value (found_of matches.now) (codes "first") ≡ Some said.first.now)
        × (first_value (found_of matches.now) (codes "second") ≡ option_map (λ word. word.now) said.second)) }
    ensures none { IsNone result → (first_value (found_of matches.now) (codes "verb") ≡ None) ⊎ (first_value (found_of matches.now) (codes "first") ≡ None) }
{
    let verb = matches.get_str("verb")?;
    let first = matches.get_str("first")?;
    let second = matches.get_str("second");
    Some(Said {
        verb,
        first,
        second,
    })
}

/// The words apart, where there are two or three and each may name a file.
pub(crate) fn said_of<'a>(alloc: Global, words: &'a [String]) -> Result<Option<Said<'a>>, NoMemory>
    ensures some { IfOk result (λ found. IfSome found (λ said. (words_of said ≡ map string_bytes words.entry.now) × All IsFileWord (map string_bytes words.entry.now))) }
    ensures none { IfOk result (λ found. IsNone found → All IsFileWord (map string_bytes words.entry.now) → (length words.entry.now ≡ 2) ⊎ (length words.entry.now ≡ 3) → ⊥) }
{
    if !are_file_words(words) {
        return Ok(None);
    }
    let table = table(alloc)?;
    match table.try_get_matches_from(words) {
        Ok(matches) => Ok(found_in(&matches)),
        Err(error) if error.kind() == ErrorKind::OutOfMemory => Err(AllocError),
        Err(_) => Ok(None),
    }
}
