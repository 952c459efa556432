//! The counters of loops.
ghost use Rattle.std.specs.Prelude.{◌≡◌, ℕ, ◌<◌, ◌≤◌, List, [], ◌∷◌, map, length, take, All, Contains, IfOk, OnOk};
ghost use Rattle.sp_tree.specs.Plain.{plain_mem};
ghost use Rattle.sp_tree.specs.PlainProgram.{PlainMem};
ghost use Rattle.sp_tree.specs.PlainTree.{plain_counter};
ghost use Rattle.sp_tree.specs.Sequential.{counter_range, count_now};
ghost use Rattle.sp_tree.specs.Step.{in_order, went};
ghost use Rattle.sp_tree.specs.Structure.{counter_numbers};
ghost use Rattle.sp_tree.specs.Typing.{Scope, with_counters};
ghost use Rattle.sp_seq.specs.Evaluating.{with_answer};
ghost use Rattle.sp_seq.specs.Looping.{values, current, words_shown, CanCount, IsStart, IsDigit};
ghost use Rattle.sp_seq.specs.Running.{Stands};
ghost use Rattle.sp_seq.specs.States.{store_of, Ran, Keeps, Sees};

use crate::digit::{Digit, first_digit, word_of};
use crate::state::{State, Stop};
use sp_tree::{Counter, MemDecl};

impl State {
    /// The words of a counter, by its two bounds.
    fn range_of(&mut self, decls: &[MemDecl], counter: &Counter) -> Result<Digit, Stop>
        requires { CanCount (map plain_mem decls.now) (plain_counter counter.now ∷ []) self.old }
        ensures ran { Ran (counter_range (map plain_mem decls.now) (plain_counter counter.now) self.old.left (store_of self.old)) (words_shown result) self.new }
        ensures keeps { OnOk result (Keeps self.old self.new) }
        ensures start { IfOk result IsStart }
    {
        let from = self.word(decls, &counter.from)?;
        let until = self.word(decls, &counter.until)?;
        Ok(first_digit(from, until, counter.by))
    }

    /// The words of counters, in order.
    pub(crate) fn ranges(
        &mut self,
        decls: &[MemDecl],
        counters: &[Counter],
        digits: &mut [Digit],
    ) -> Result<(), Stop>
        requires few { length counters.now ≤ length digits.old }
        requires can { CanCount (map plain_mem decls.now) (map plain_counter counters.now) self.old }
        ensures ran { Ran (in_order (counter_range (map plain_mem decls.now)) (map plain_counter counters.now) self.old.left (store_of self.old)) (with_answer (map values (take (length counters.now) digits.new)) result) self.new }
        ensures keeps { OnOk result (Keeps self.old self.new) }
        ensures starts { OnOk result (All IsStart (take (length counters.now) digits.new)) }
    {
        for (k, counter) in counters.iter().enumerate() {
            let range = self.range_of(decls, counter)?;
            digits[k] = range;
        }
        Ok(())
    }

    /// Each counter stands for its word.
    pub(crate) fn count_all(&mut self, counters: &[Counter], digits: &[Digit])
        requires each { length digits.now ≡ length counters.now }
        requires digits { All IsDigit digits.now }
        requires inside { (c : ℕ) → Contains (counter_numbers (map plain_counter counters.now)) c → c < length self.old.counts.items }
        ensures ran { count_now (map plain_counter counters.now) (current digits.now) self.old.left (store_of self.old) ≡ went tt self.new.left (store_of self.new) }
        ensures stands { (mems : List PlainMem) (roomy : List ℕ) (scope : Scope) → Sees mems roomy scope self.old → Stands mems roomy (with_counters scope (map plain_counter counters.now)) self.old self.new }
        ensures left { self.new.left ≡ self.old.left }
    {
        let [counter, others @ ..] = counters else {
            return;
        };
        let [digit, rest @ ..] = digits else {
            unreachable!()
        };
        self.count(counter.id.number(), word_of(digit));
        self.count_all(others, rest);
    }
}
