//! Numbers of memories that know the kind of their memory. Contracts see each as its number.

ghost use Rattle.std.specs.Prelude.{◌≡◌};

use crate::memory_kind::{MemKind, Readable, Writable};
use std::marker::{Model, PhantomData};

/// The number of a memory of the kind `K`.
#[derive_where(Clone, Copy, Debug, PartialEq, Eq, Hash)]
pub struct MemId<K: MemKind> {
    number: u32,
    kind: PhantomData<K>,
}

impl<K: MemKind> Model for MemId<K> {
    ghost use Rattle.std.specs.Prelude.{ℕ};

    ghost Value = { ℕ };

    ghost view = { λ a. a.number };

    ghost inverse = { λ n. record { number = n; kind = record {} } };
}

impl<K: MemKind> MemId<K> {
    /// The memory of this number.
    pub fn new(number: u32) -> MemId<K>
        ensures { result ≡ number }
    {
        MemId {
            number,
            kind: PhantomData,
        }
    }

    /// Its number.
    pub fn number(&self) -> u32
        ensures { result ≡ self.now }
    {
        self.number
    }
}

/// A port that reads the memory of a number.
#[derive_where(Clone, Copy, Debug, PartialEq, Eq, Hash)]
pub struct ReadPort<K: Readable> {
    mem: MemId<K>,
}

impl<K: Readable> Model for ReadPort<K> {
    ghost use Rattle.std.specs.Prelude.{ℕ};

    ghost Value = { ℕ };

    ghost view = { λ a. a.mem };

    ghost inverse = { λ n. record { mem = n } };
}

impl<K: Readable> ReadPort<K> {
    /// The port of the memory.
    pub fn new(mem: MemId<K>) -> ReadPort<K>
        ensures { result ≡ mem }
    {
        ReadPort { mem }
    }

    /// The number of its memory.
    pub fn number(&self) -> u32
        ensures { result ≡ self.now }
    {
        self.mem.number()
    }
}

/// A port that writes the memory of a number.
#[derive_where(Clone, Copy, Debug, PartialEq, Eq, Hash)]
pub struct WritePort<K: Writable> {
    mem: MemId<K>,
}

impl<K: Writable> Model for WritePort<K> {
    ghost use Rattle.std.specs.Prelude.{ℕ};

    ghost Value = { ℕ };

    ghost view = { λ a. a.mem };

    ghost inverse = { λ n. record { mem = n } };
}

impl<K: Writable> WritePort<K> {
    /// The port of the memory.
    pub fn new(mem: MemId<K>) -> WritePort<K>
        ensures { result ≡ mem }
    {
        WritePort { mem }
    }

    /// The number of its memory.
    pub fn number(&self) -> u32
        ensures { result ≡ self.now }
    {
        self.mem.number()
    }
}
