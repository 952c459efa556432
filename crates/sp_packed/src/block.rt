//! A block of values of one type, all of them there, that gives its memory back when it is dropped.
ghost use Rattle.std.specs.Prelude.{◌≡◌, ℕ, ◌<◌, List, Some, map, length, replicate, slice_get, slice_set, IfOk};
ghost use Rattle.std.specs.Vec.Ownership.{FitsInBlock};

use crate::raw::{Base, Cells, Deed, allocate, deallocate};
use std::alloc::{AllocError, Global};
use std::marker::Model;

pub(crate) struct Block<T> {
    base: Base<T>,
    len: usize,
    cells: Cells<T>,
    deed: Deed<T, Global>,
    alloc: Global,
}

impl<T> Model for Block<T> {
    ghost use Rattle.std.specs.Prelude.{◌≡◌, List, Some, map, length};
    ghost use Rattle.sp_packed.specs.Places.{somes};

    ghost Value = { List T };

    ghost view = { λ b. somes b.cells.slots };

    ghost invariant = { λ b. (b.cells.at ≡ b.base.ptr) × (b.cells.slots ≡ map Some (somes b.cells.slots)) × (length (somes b.cells.slots) ≡ b.len) × (b.deed.at ≡ b.base.ptr) × (b.deed.len ≡ b.len) × (b.deed.alloc ≡ b.alloc) };
}

impl<T> Drop for Block<T> {
    fn drop(self) {
        let Block {
            base,
            len,
            cells,
            deed,
            alloc,
        } = self;
        deallocate(&alloc, base, len, cells, deed);
    }
}

/// Puts `value` into each of the `len` places.
fn write_all<T: Copy>(cells: &mut Cells<T>, base: Base<T>, len: usize, value: T)
    requires { (base.ptr ≡ cells.old.at) × (length cells.old.slots ≡ len) }
    ensures { (cells.new.at ≡ cells.old.at) × (cells.new.slots ≡ map Some (replicate len value)) }
{
    for i in 0..len {
        cells.write(base, i, value);
    }
}

impl<T: Copy> Block<T> {
    /// A block of `len` values, each of them `value`. It takes `len * size_of::<T>()` bytes.
    pub(crate) fn filled(alloc: Global, len: usize, value: T) -> Result<Block<T>, AllocError>
        requires { FitsInBlock T.row len }
        ensures { IfOk result (λ b. b ≡ replicate len value) }
    {
        let (base, mut cells, deed) = allocate(&alloc, len)?;
        write_all(&mut cells, base, len, value);
        Ok(Block {
            base,
            len,
            cells,
            deed,
            alloc,
        })
    }

    #[inline(always)]
    pub(crate) fn len(&self) -> usize
        ensures { result ≡ length self.now }
    {
        self.len
    }

    #[inline(always)]
    pub(crate) fn get(&self, i: usize) -> T
        requires { i < length self.now }
        ensures { slice_get self.now i ≡ Some result }
    {
        *self.cells.get(self.base, i)
    }

    #[inline(always)]
    pub(crate) fn set(&mut self, i: usize, value: T)
        requires { i < length self.old }
        ensures { self.new ≡ slice_set self.old i value }
    {
        self.cells.write(self.base, i, value);
    }

    #[inline(always)]
    pub(crate) fn fill(&mut self, value: T)
        ensures { self.new ≡ replicate (length self.old) value }
    {
        write_all(&mut self.cells, self.base, self.len, value);
    }
}
