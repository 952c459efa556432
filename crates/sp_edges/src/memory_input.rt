// Inputs that are kept in memory.
ghost use Rattle.std.specs.Prelude.{◌≡◌, ◌≢◌, ◌↔◌, ◌⊎◌, ℕ, ◌+◌, ◌^◌, ◌<◌, ◌≤◌, List, [], ◌∷◌, ◌++◌, refl, length, map, find, take, Some, None, Err, OnOk, OnErr, IsTrue, is_some, IsSome, if◌then◌else◌};
ghost use Rattle.std.specs.Option.{option_copied, option_map};
ghost use Rattle.std.specs.String.{string_bytes};
ghost use Rattle.std.specs.Str.{bytes_eq};
ghost use Rattle.sp_edges.specs.Counts.{one_more, Rose};
ghost use Rattle.sp_edges.specs.Standing.{Standing, Untold, Missing, Holds, AppendsAll, AppendsPast, AppendsPart};
ghost use Rattle.sp_edges.specs.Calls.{Call};
ghost use Rattle.sp_edges.specs.Memory.{WasAsked, after_calls-append, next_number, is_among, file_named, standing_under, IsSure, sure_name-told, fails_at, counted, new_files, standing_of};
ghost use Rattle.sp_edges.specs.Files.{file_of};

use crate::input::{InputFault, Inputs};
use std::marker::Model;

/// A file in memory.
#[derive(Debug, Drop)]
pub struct MemFile {
    pub name: String,
    pub bytes: Vec<u8>,
}

/// Files in memory, and the numbers of the calls that are to fail.
///
/// Calls are numbered from 0. Of two files with one name the first counts.
#[derive(Debug, Drop)]
pub struct MemInputs {
    files: Vec<MemFile>,
    failing: Vec<u64>,
    next: Option<u64>,
    faults: u64,
}

impl Model for MemInputs {
    ghost use Rattle.std.specs.Prelude.{map};
    ghost use Rattle.sp_edges.specs.Memory.{KeptFiles};
    ghost use Rattle.sp_edges.specs.Files.{file_of};

    ghost Value = { KeptFiles };

    ghost view = { λ inputs. record { files = map file_of inputs.files.items; failing = inputs.failing.items; next = inputs.next; faults = inputs.faults } };
}

impl MemInputs {
    /// Inputs that have these files, and whose calls of these numbers are to fail. Takes no memory.
    pub fn new(files: Vec<MemFile>, failing: Vec<u64>) -> MemInputs
        ensures new { result ≡ new_files (map file_of files.items) failing.items }
        ensures told { (name : List ℕ) →
            ⟦<MemInputs as Inputs>⟧.told result name ≡ standing_of (file_named (map file_of files.items) name) }
        ensures sure { (name : List ℕ) → failing.items ≡ [] →
            IsSome (file_named (map file_of files.items) name) → ⟦<MemInputs as Inputs>⟧.sure result name }
    {
        MemInputs {
            files,
            failing,
            next: Some(0),
            faults: 0,
        }
    }

    // Counts a call, and says whether it is to fail.
    fn begin_call(&mut self) -> bool
        ensures fails { result ≡ is_among self.old.failing self.old.next }
        ensures counts { self.new ≡ record self.old { next = next_number self.old.next } }
    {
        let Some(call) = self.next else {
            return false;
        };
        self.next = call.checked_add(1);
        self.failing.contains(&call)
    }

    // Counts a fault.
    fn fail(&mut self) -> InputFault
        ensures failed { result ≡ InputFault.Failed }
        ensures counts { self.new ≡ record self.old { faults = one_more self.old.faults } }
        ensures rises { self.old.faults ≤ self.new.faults }
    {
        self.faults = self.faults.saturating_add(1);
        InputFault::Failed
    }

    // The first file of this name.
    fn find_file(&self, name: &str) -> Option<&MemFile>
        ensures { file_named self.now.files name.now ≡ option_map file_of (option_copied result) }
    {
        find_first(self.files.as_slice(), name)
    }
}

// The first file of this name.
fn find_first<'a>(files: &'a [MemFile], name: &str) -> Option<&'a MemFile>
    ensures { option_copied result ≡ find (λ file. bytes_eq (string_bytes file.name) name.now) files.now }
{
    files.iter().find(|file| file.name.as_str() == name)
}

// Appends all of `bytes`, or the first `most + 1` of them where they are more than `most`.
fn append_at_most(bytes: &[u8], most: usize, into: &mut Vec<u8>) -> Result<(), InputFault>
    ensures all { OnOk result (AppendsAll (Holds bytes.now) most into.old.items into.new.items) }
    ensures too_long { result ≡ Err InputFault.TooLong →
        AppendsPast (Holds bytes.now) most into.old.items into.new.items }
    ensures part { OnErr result (AppendsPart (Holds bytes.now) into.old.items into.new.items) }
    ensures not_failed { result ≢ Err InputFault.Failed }
{
    if bytes.len() <= most {
        return into
            .extend_from_slice(bytes)
            .map_err(|_| InputFault::Memory);
    }
    into.extend_from_slice(&bytes[..most + 1])
        .map_err(|_| InputFault::Memory)?;
    Err(InputFault::TooLong)
}

impl Inputs for MemInputs {
    ghost told = { standing_under };

    ghost faults = { λ inputs. inputs.faults };

    ghost sure = { IsSure };

    ghost asked = { WasAsked };

    ghost sure_is_told = { sure_name-told };

    ghost no_call = { λ _. refl };

    ghost stays = { λ _ _ same. same };

    ghost more_calls = { after_calls-append };

    fn read_into(&mut self, name: &str, most: usize, into: &mut Vec<u8>) -> Result<(), InputFault>
        ensures all { OnOk result (AppendsAll (standing_under self.old name.now) most into.old.items into.new.items) }
        ensures too_long { result ≡ Err InputFault.TooLong →
            AppendsPast (standing_under self.old name.now) most into.old.items into.new.items }
        ensures part { OnErr result (AppendsPart (standing_under self.old name.now) into.old.items into.new.items) }
        ensures asks { WasAsked self.old (record { name = name.now; answer = result } ∷ []) self.new }
        ensures failed { result ≡ Err InputFault.Failed → Rose self.old.faults self.new.faults }
        ensures not_sure { IsSure self.old name.now → result ≢ Err InputFault.Failed }
        ensures missing { standing_under self.old name.now ≡ Missing → result ≡ Err InputFault.Failed }
        ensures counts { self.old.faults ≤ self.new.faults }
        ensures tells { (n : List ℕ) → standing_under self.new n ≡ standing_under self.old n }
        ensures stays_sure { (n : List ℕ) → IsSure self.old n → IsSure self.new n }

        // It fails exactly where the call is to fail or there is no file of this name, and then appends nothing.
        ensures fails { IsTrue (fails_at self.old name.now) → result ≡ Err InputFault.Failed }
        ensures only_failed { result ≡ Err InputFault.Failed → IsTrue (fails_at self.old name.now) }
        ensures nothing { result ≡ Err InputFault.Failed → into.new.items ≡ into.old.items }
        ensures after { self.new ≡ counted self.old (fails_at self.old name.now) }
    {
        let fails = self.begin_call();
        match self.find_file(name) {
            Some(file) if !fails => append_at_most(file.bytes.as_slice(), most, into),
            _ => Err(self.fail()),
        }
    }
}
