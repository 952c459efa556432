//! The names that are visible, and what they stand for.

ghost use Rattle.std.specs.Prelude.{◌≡◌, ◌∷◌, [], ◌++◌, ◌≤◌, length, take, IfOk, OnOk, MatchOption, None, Some, string_bytes};
ghost use Rattle.std.specs.List.{list_any};
ghost use Rattle.std.specs.Str.{bytes_eq};
ghost use Rattle.sp_types.specs.Plain.{plain_symbol, visible_of};
ghost use Rattle.sp_types.specs.Visible.{Visible, symbol_of, declare, is_busy, with_acc, back_to, nothing_visible};

use indexmap::IndexMap;
use sp_words::{Kind, Ty};
use std::alloc::{AllocError, Global};

/// What a name stands for: a memory, with the type of its words where that is known; a value, with its type
/// where that is known; a counter.
#[derive(Debug, Drop)]
pub enum Symbol {
    Memory {
        kind: Kind,
        ty: Option<Ty>,
        dims: Vec<u32>,
    },
    Value(Option<Ty>),
    Counter,
}

/// The visible names in the order of their declarations, and the accumulators in whose bodies they are asked.
#[derive(Drop)]
pub struct Scope {
    pub names: IndexMap<String, Symbol>,
    pub busy: Vec<String>,
}

fn is_among(words: &[String], name: &str) -> bool
    ensures { result ≡ list_any (λ word. bytes_eq (string_bytes word) name.now) words.now }
{
    words.iter().any(|word| word.as_str() == name)
}

/// How many names and accumulators there are at a place.
#[derive(Clone, Copy, Debug)]
pub struct Mark {
    pub names: usize,
    pub busy: usize,
}

impl Scope {
    pub fn new(alloc: Global) -> Scope
        ensures { visible_of result ≡ nothing_visible }
    {
        Scope {
            names: IndexMap::new(alloc),
            busy: Vec::new(alloc),
        }
    }

    /// What a name stands for, if it is visible.
    pub fn find(&self, name: &str) -> Option<&Symbol>
        ensures { MatchOption result (symbol_of (visible_of self.now) name.now ≡ None) (λ s. symbol_of (visible_of self.now) name.now ≡ Some (plain_symbol s.now)) }
    {
        self.names.get(name)
    }

    /// Whether it is that of an accumulator around.
    pub fn is_busy(&self, name: &str) -> bool
        ensures { result ≡ is_busy (visible_of self.now) name.now }
    {
        is_among(&self.busy, name)
    }

    /// Gives a name to a symbol, unless it has one that is visible.
    pub fn declare(&mut self, alloc: Global, name: &str, symbol: Symbol) -> Result<(), AllocError>
        ensures { OnOk result (visible_of self.new ≡ declare (visible_of self.old) name.now (plain_symbol symbol)) }
    {
        if self.names.contains_key(name) {
            return Ok(());
        }
        self.names.insert(String::from_str(alloc, name)?, symbol)?;
        Ok(())
    }

    /// Where the names and the accumulators end now.
    pub fn mark(&self) -> Mark
        ensures names { result.names ≡ length (visible_of self.now).names }
        ensures busy { result.busy ≡ length (visible_of self.now).busy }
    {
        Mark {
            names: self.names.len(),
            busy: self.busy.len(),
        }
    }

    /// Forgets all that was added after the mark.
    pub fn leave(&mut self, mark: Mark)
        ensures { visible_of self.new ≡ back_to mark.names mark.busy (visible_of self.old) }
    {
        self.names.truncate(mark.names);
        self.busy.truncate(mark.busy);
    }

    /// Goes into the body of an accumulator.
    pub fn hold(&mut self, alloc: Global, acc: &str) -> Result<(), AllocError>
        ensures { OnOk result (visible_of self.new ≡ with_acc (visible_of self.old) acc.now) }
    {
        self.busy.push(String::from_str(alloc, acc)?)?;
        Ok(())
    }
}
