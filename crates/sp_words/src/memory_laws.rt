//! Laws of what memories hold. Each function does nothing: what it ensures is the law.

ghost use Rattle.std.specs.Prelude.{◌≡◌, ◌≢◌, ℕ, List, Option, Some, IsTrue};
ghost use Rattle.sp_words.specs.declared.kind.Kind.{Kind};
ghost use Rattle.sp_words.specs.declared.kind.Kind.TheVariants as kinds;
ghost use Rattle.sp_words.specs.Memory.{Contents, State, Access, held, update, least_rank, greatest_rank, is_readable, is_writable, fresh_of};
ghost use Rattle.sp_words.specs.Footprints.{IsFootprint, IsContentsOf, IsDeclared};

use crate::memory_kind::{
    ArgIn, ArgOut, Dram, Fifo, LineBuf, MemKind, Readable, Reg, Sram, Writable,
};
use crate::memory_number::MemId;

/// An access, whatever it does to its memory and whatever it answers, changes and looks at only the
/// memory that it names.
pub fn accesses_are_footprints<K: MemKind, Answer>(memory: MemId<K>)
    ensures { (access : Access Answer) → IsFootprint memory access }
{}

/// A state is what its memories hold. To change one leaves the others, and changes of two memories may
/// come in either order.
pub fn states_are_what_is_held()
    ensures changed { (state : State) (number : ℕ) (contents : Contents) → held (update state number contents) number ≡ Some contents }
    ensures others { (state : State) (number : ℕ) (contents : Contents) (other : ℕ) → other ≢ number → held (update state number contents) other ≡ held state other }
    ensures last { (state : State) (number : ℕ) (first last : Contents) → update (update state number first) number last ≡ update state number last }
    ensures apart { (state : State) (one two : ℕ) (first last : Contents) → one ≢ two → update (update state one first) two last ≡ update (update state two last) one first }
    ensures same { (one two : State) → ((number : ℕ) → held one number ≡ held two number) → one ≡ two }
{}

/// A fresh memory holds as much as its kind and dimensions say.
pub fn fresh_memories_fit()
    ensures { (kind : Kind) (dims : List ℕ) (start : Option ℕ) (given : List ℕ) → IsDeclared kind dims given → IsContentsOf kind dims (fresh_of kind dims start given) }
{}

/// Each type names its kind, which says the ranks of its accesses and what a fresh memory holds.
pub fn types_name_their_kinds()
    ensures register { ⟦<Reg as MemKind>⟧.KIND ≡ kinds.Reg }
    ensures sram { ⟦<Sram as MemKind>⟧.KIND ≡ kinds.Sram }
    ensures fifo { ⟦<Fifo as MemKind>⟧.KIND ≡ kinds.Fifo }
    ensures line_buffer { ⟦<LineBuf as MemKind>⟧.KIND ≡ kinds.LineBuf }
    ensures dram { ⟦<Dram as MemKind>⟧.KIND ≡ kinds.Dram }
    ensures argument { ⟦<ArgIn as MemKind>⟧.KIND ≡ kinds.ArgIn }
    ensures output { ⟦<ArgOut as MemKind>⟧.KIND ≡ kinds.ArgOut }
{}

/// What a kind says as a type is what it says as a `Kind`.
pub fn kinds_decide<K: MemKind>()
    ensures least_rank { K.MIN_RANK ≡ least_rank K.KIND }
    ensures greatest_rank { K.MAX_RANK ≡ greatest_rank K.KIND }
    ensures fresh { (dims : List ℕ) (start : Option ℕ) (given : List ℕ) → K.fresh dims start given ≡ fresh_of K.KIND dims start given }
{}

/// What has a read port is of a kind that may be read, and what has a write port of one that may be written.
/// So no output has a read port, no argument and no line buffer a write port, and a DRAM neither.
pub fn ports_keep_to_their_kinds<R: Readable, W: Writable>()
    ensures read { IsTrue (is_readable R.KIND) }
    ensures written { IsTrue (is_writable W.KIND) }
    ensures no_output_read { R.KIND ≢ kinds.ArgOut }
    ensures no_argument_written { W.KIND ≢ kinds.ArgIn }
    ensures no_dram_read { R.KIND ≢ kinds.Dram }
    ensures no_line_buffer_written { W.KIND ≢ kinds.LineBuf }
    ensures no_dram_written { W.KIND ≢ kinds.Dram }
{}
