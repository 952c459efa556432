//! Laws of least plans. Each function does nothing: what it ensures is the law.

ghost use Rattle.std.specs.Prelude.{ℕ, Bool, IsTrue, List, Option};
ghost use Rattle.sp_bank.specs.Banking.{Banking};
ghost use Rattle.sp_core.specs.declared.access.Meet.{Meet};
ghost use Rattle.sp_core.specs.PlainCore.{PlainCore, PlainOp};
ghost use Rattle.sp_plan.specs.Bodies.{are_times_right};
ghost use Rattle.sp_plan.specs.PlainPlan.{inner_plan};
ghost use Rattle.sp_sched.specs.Least.{IsLeastBody};

/// The least plan of an inner body has the times, the interval and the latency that a valid plan may have.
pub fn least_plans_are_right()
    ensures { (core : PlainCore) (schemes : List (Option Banking)) (meets : List Meet) (number : ℕ) (streamed : Bool) (ops : List PlainOp) (times : List ℕ) (ii latency : ℕ) (serial : Bool)
        → IsLeastBody core schemes meets number streamed ops (inner_plan times ii latency serial) → IsTrue (are_times_right core schemes meets number streamed ops times ii latency serial) }
{}
