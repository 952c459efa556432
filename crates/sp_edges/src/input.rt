// What gives texts by name.
ghost use Rattle.std.specs.Prelude.{◌≡◌, ◌≢◌, ℕ, ◌≤◌, List, [], ◌∷◌, ◌++◌, OnOk, OnErr, Err};
ghost use Rattle.sp_edges.specs.Calls.{Call};
ghost use Rattle.sp_edges.specs.Counts.{Rose};
ghost use Rattle.sp_edges.specs.Standing.{Standing, Missing, Holds, AppendsAll, AppendsPast, AppendsPart};

/// Why a call for a name did not give all that stands there.
#[derive(Clone, Copy, Debug, PartialEq, Eq)]
pub enum InputFault {
    /// Nothing stands there, or reading it failed.
    Failed,
    /// More bytes stand there than were asked for.
    TooLong,
    /// The buffer could not grow.
    Memory,
}

/// Texts that stand under names.
pub trait Inputs {
    /// What stands under each name, where it is told.
    ghost told: { Self → List ℕ → Standing };

    /// How often reading has failed.
    ghost faults: { Self → ℕ };

    /// The names that can be read without a fault.
    ghost sure: { Self → List ℕ → Type 0 };

    /// Between two moments these calls were made, in this order.
    ghost asked: { Self → List Call → Self → Type 0 };

    /// Appends all bytes that stand under `name` to `into`, if they are at most `most`.
    ///
    /// At `TooLong` the first `most + 1` of them were appended, at the other errors some first bytes.
    /// What `into` held before stays in front.
    fn read_into(&mut self, name: &str, most: usize, into: &mut Vec<u8>) -> Result<(), InputFault>
        ensures all { OnOk result (AppendsAll (told self.old name.now) most into.old.items into.new.items) }
        ensures too_long { result ≡ Err InputFault.TooLong →
            AppendsPast (told self.old name.now) most into.old.items into.new.items }
        ensures part { OnErr result (AppendsPart (told self.old name.now) into.old.items into.new.items) }

        // The call was made, and so answered.
        ensures asks { asked self.old (record { name = name.now; answer = result } ∷ []) self.new }

        // Why it failed.
        ensures failed { result ≡ Err InputFault.Failed → Rose (faults self.old) (faults self.new) }
        ensures not_sure { sure self.old name.now → result ≢ Err InputFault.Failed }
        ensures missing { told self.old name.now ≡ Missing → result ≡ Err InputFault.Failed }

        // What stays.
        ensures counts { faults self.old ≤ faults self.new }
        ensures tells { (n : List ℕ) → told self.new n ≡ told self.old n }
        ensures stays_sure { (n : List ℕ) → sure self.old n → sure self.new n };

    /// What stands under a sure name is told.
    ghost sure_is_told: { (inputs : Self) (name : List ℕ) → sure inputs name →
        (bytes : List ℕ) × (told inputs name ≡ Holds bytes) };

    /// Without a call the inputs stay as they are.
    ghost no_call: { (inputs : Self) → asked inputs [] inputs };

    ghost stays: { (before after : Self) → asked before [] after → after ≡ before };

    /// Calls that were made one after another.
    ghost more_calls: { (before middle after : Self) (calls more : List Call) →
        asked before calls middle → asked middle more after → asked before (calls ++ more) after };
}
