//! Laws of the cores of programs. Each function does nothing: what it ensures is the law.

ghost use Rattle.sp_tree.specs.Invariant.{IsProgram};
ghost use Rattle.sp_tree.specs.PlainProgram.{PlainProgram};
ghost use Rattle.sp_lane_groups.specs.FirstLaws.{ResetsFirstIn, RootStands};

use crate::programs_are_plain;

/// In each inner body of the core of a program a memory that has a reset operation is reset before it is used.
pub fn programs_reset_first()
    ensures { (p : PlainProgram) → IsProgram p → ResetsFirstIn p }
{}

/// The tree of the core of a program keeps what laws of lanes ask of a node at a place.
pub fn programs_stand()
    ensures { (p : PlainProgram) → IsProgram p → RootStands p }
{
    programs_are_plain();
}
