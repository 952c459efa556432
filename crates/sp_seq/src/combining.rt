//! How loops combine words in an accumulator, and expressions under a name.
ghost use Rattle.std.specs.Prelude.{◌≡◌, ℕ, ◌<◌, map, length, IfOk, OnOk};
ghost use Rattle.sp_words.specs.Interface.{word_count};
ghost use Rattle.sp_words.specs.Words.{IsWord};
ghost use Rattle.sp_tree.specs.Expressions as expressions;
ghost use Rattle.sp_tree.specs.Plain.{plain_expr, plain_mem};
ghost use Rattle.sp_tree.specs.Sequential as sequential;
ghost use Rattle.sp_seq.specs.Looping.{one_combined, word_combined, word_named, CanAssign, CanCombine, CanCombineAll, CanName};
ghost use Rattle.sp_seq.specs.Running.{Stands};
ghost use Rattle.sp_seq.specs.Slices.{RanSome};
ghost use Rattle.sp_seq.specs.States.{store_of, Ran, Keeps};

use crate::operators::combined;
use crate::sparse::size;
use crate::state::{State, Stop};
use sp_tree::{Comb, Expr, MemDecl};

/// Where a loop combines words, with which operator, and where its statement begins.
#[derive(Clone, Copy)]
pub(crate) struct Target {
    pub(crate) acc: u32,
    pub(crate) comb: Comb,
    pub(crate) at: u32,
}

impl State {
    /// A word goes into a cell, alone or combined with what the cell holds.
    fn assign(
        &mut self,
        decls: &[MemDecl],
        into: Target,
        cell: usize,
        combines: bool,
        word: u64,
    ) -> Result<(), Stop>
        requires { CanAssign (map plain_mem decls.now) self.old into.acc cell word }
        ensures ran { Ran (sequential.assign (map plain_mem decls.now) into.comb into.acc cell combines word into.at self.old.left (store_of self.old)) result self.new }
        ensures keeps { OnOk result (Keeps self.old self.new) }
    {
        if !combines {
            self.write_cell(into.acc, cell, word);
            return Ok(());
        }
        let before = self.read_cell(into.acc, cell, into.at)?;
        let ty = decls[into.acc as usize].ty;
        self.write_cell(into.acc, cell, combined(into.comb, ty, before, word));
        Ok(())
    }

    /// The word of an expression goes into a register.
    pub(crate) fn combine_word(
        &mut self,
        decls: &[MemDecl],
        into: Target,
        combines: bool,
        value: &Expr,
    ) -> Result<(), Stop>
        requires { CanCombine (map plain_mem decls.now) self.old into.acc (plain_expr value.now) }
        ensures ran { Ran (word_combined (map plain_mem decls.now) into.comb into.acc into.at (plain_expr value.now) combines self.old.left (store_of self.old)) result self.new }
        ensures keeps { OnOk result (Keeps self.old self.new) }
    {
        let word = self.word(decls, value)?;
        self.assign(decls, into, 0, combines, word)
    }

    /// A word of one SRAM goes into the element of another one at the same place.
    fn combine_one(
        &mut self,
        decls: &[MemDecl],
        into: Target,
        combines: bool,
        part: u32,
        cell: usize,
    ) -> Result<(), Stop>
        requires can { CanCombineAll (map plain_mem decls.now) self.old into.acc part }
        requires below { cell < word_count (expressions.dims (map plain_mem decls.now) into.acc) }
        ensures ran { Ran (one_combined (map plain_mem decls.now) into.comb into.acc part combines into.at cell self.old.left (store_of self.old)) result self.new }
        ensures keeps { OnOk result (Keeps self.old self.new) }
    {
        let word = self.read_cell(part, cell, into.at)?;
        self.turn()?;
        self.assign(decls, into, cell, combines, word)
    }

    /// The words of one SRAM go into the elements of another one.
    pub(crate) fn combine_all(
        &mut self,
        decls: &[MemDecl],
        into: Target,
        combines: bool,
        part: u32,
    ) -> Result<(), Stop>
        requires { CanCombineAll (map plain_mem decls.now) self.old into.acc part }
        ensures ran { RanSome (sequential.assign_all (map plain_mem decls.now) into.comb into.acc part combines into.at self.old.left (store_of self.old)) result self.new }
        ensures keeps { OnOk result (Keeps self.old self.new) }
    {
        let words = size(decls, into.acc);
        for cell in 0..words {
            self.combine_one(decls, into, combines, part, cell)?;
        }
        Ok(())
    }

    /// The word of an expression, while a value stands for a word.
    pub(crate) fn word_under(
        &mut self,
        decls: &[MemDecl],
        value: u32,
        named: u64,
        e: &Expr,
    ) -> Result<u64, Stop>
        requires { CanName (map plain_mem decls.now) self.old value named (plain_expr e.now) }
        ensures ran { Ran (word_named (map plain_mem decls.now) value named (plain_expr e.now) self.old.left (store_of self.old)) result self.new }
        ensures stands { (can : CanName (map plain_mem decls.now) self.old value named (plain_expr e.now)) → OnOk result (Stands (map plain_mem decls.now) can.setting.roomy can.setting.scope self.old self.new) }
        ensures fits { IfOk result (IsWord e.now.ty) }
    {
        self.name(value, named);
        self.word(decls, e)
    }
}
