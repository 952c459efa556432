//! The names that are visible, what they stand for, and their numbers.

ghost use Rattle.std.specs.Prelude.{◌≡◌, length, OnOk, MatchOption, None, Some};
ghost use Rattle.sp_typed.specs.Named.{at_start, give, meant_by};
ghost use Rattle.sp_typed.specs.Plain.{back_to, here_of, meant, plain_symbol};

use indexmap::IndexMap;
use sp_words::{Kind, Ty};
use std::alloc::{AllocError, Global};

/// What a name stands for: a memory, with the type of its words; a value, with its type; a counter.
#[derive(Debug, Drop)]
pub enum Symbol {
    Memory {
        kind: Kind,
        ty: Option<Ty>,
        dims: Vec<u32>,
    },
    Value(Option<Ty>),
    Counter,
}

/// What a name stands for, and its number among the memories, values or counters of the program.
#[derive(Debug, Drop)]
pub struct Entry {
    pub symbol: Symbol,
    pub number: u32,
}

/// The visible names in the order of their declarations, and how many memories, values and counters are
/// declared before this place.
#[derive(Drop)]
pub struct Scope {
    pub names: IndexMap<String, Entry>,
    pub mems: u32,
    pub vals: u32,
    pub counters: u32,
}

impl Scope {
    pub fn new(alloc: Global) -> Scope
        ensures { here_of result ≡ at_start }
    {
        Scope {
            names: IndexMap::new(alloc),
            mems: 0,
            vals: 0,
            counters: 0,
        }
    }

    /// What a name stands for, if it is visible.
    pub fn find(&self, name: &str) -> Option<&Entry>
        ensures { MatchOption result (meant_by (here_of self.now) name.now ≡ None) (λ e. meant_by (here_of self.now) name.now ≡ Some (meant e.now)) }
    {
        self.names.get(name)
    }

    /// Gives a name to what has this number, unless the name is visible.
    pub fn give(
        &mut self,
        alloc: Global,
        name: &str,
        symbol: Symbol,
        number: u32,
    ) -> Result<(), AllocError>
        ensures { OnOk result (here_of self.new ≡ give (here_of self.old) name.now (plain_symbol symbol) number) }
    {
        if self.names.contains_key(name) {
            return Ok(());
        }
        self.names
            .insert(String::from_str(alloc, name)?, Entry { symbol, number })?;
        Ok(())
    }

    /// Where the names end now.
    pub fn mark(&self) -> usize
        ensures { result ≡ length (here_of self.now).names }
    {
        self.names.len()
    }

    /// Forgets the names that were given after the mark.
    pub fn leave(&mut self, mark: usize)
        ensures { here_of self.new ≡ back_to mark (here_of self.old) }
    {
        self.names.truncate(mark);
    }
}
