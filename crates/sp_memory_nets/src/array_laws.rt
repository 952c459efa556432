//! Laws of the banks of a core's SRAMs. A law is a function whose contract is the law, and which does nothing but call the laws
//! that it uses.

ghost use Rattle.sp_core.specs.PlainCore.{PlainCore};
ghost use Rattle.sp_plan.specs.PlainPlan.{PlainPlan};
ghost use Rattle.sp_memory_nets.specs.ArrayLaws.{ArraysAreOpen, ArraysShareNone, ArraysStay, ValidPlansHaveArrays};

use sp_bank_words::plans_have_layouts;
use sp_core_ports::plans_have_copies;

/// The nets of the ports of SRAMs' banks that are to be driven are open.
pub fn arrays_are_open()
    ensures { ArraysAreOpen }
{}

/// Where the banks of SRAMs are all banks that stand, no two enabled taps stand on a port of any bank.
pub fn arrays_share_none()
    ensures { ArraysShareNone }
{}

/// Banks that stand still do in a later draft in which the nets of their ports are open.
pub fn arrays_stay()
    ensures { ArraysStay }
{}

/// By a valid plan, whose schemes are of those that are searched, the banks of SRAMs can be added.
pub fn valid_plans_have_arrays()
    ensures { (core : PlainCore) (plan : PlainPlan) → ValidPlansHaveArrays core plan }
{
    plans_have_layouts();
    plans_have_copies();
}
