//! Numbers of values and of counters. Contracts see each as its number.

ghost use Rattle.std.specs.Prelude.{◌≡◌};

use std::marker::Model;

/// The number of a value: of a `val` that names an expression, or of a binder of an FSM.
#[derive(Clone, Copy, Debug, PartialEq, Eq, Hash)]
pub struct ValId {
    number: u32,
}

impl Model for ValId {
    ghost use Rattle.std.specs.Prelude.{ℕ};

    ghost Value = { ℕ };

    ghost view = { λ a. a.number };

    ghost inverse = { λ n. record { number = n } };
}

impl ValId {
    /// The value of this number.
    pub fn new(number: u32) -> ValId
        ensures { result ≡ number }
    {
        ValId { number }
    }

    /// Its number.
    pub fn number(&self) -> u32
        ensures { result ≡ self.now }
    {
        self.number
    }
}

/// The number of a counter.
#[derive(Clone, Copy, Debug, PartialEq, Eq, Hash)]
pub struct CtrId {
    number: u32,
}

impl Model for CtrId {
    ghost use Rattle.std.specs.Prelude.{ℕ};

    ghost Value = { ℕ };

    ghost view = { λ a. a.number };

    ghost inverse = { λ n. record { number = n } };
}

impl CtrId {
    /// The counter of this number.
    pub fn new(number: u32) -> CtrId
        ensures { result ≡ number }
    {
        CtrId { number }
    }

    /// Its number.
    pub fn number(&self) -> u32
        ensures { result ≡ self.now }
    {
        self.number
    }
}
