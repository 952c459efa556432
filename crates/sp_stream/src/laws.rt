//! Laws. Each function does nothing: what it ensures is proved.

ghost use Rattle.sp_stream.specs.Laws.{StepsSuffice, ForestsHaveNoCircle};

/// No way is lost by the bound on its steps: whether FIFOs make a forest doesn't hang on it.
pub fn steps_suffice()
    ensures { StepsSuffice }
{}

/// FIFOs make a forest of stages exactly where no circle leads over some of them, each once.
pub fn forests_have_no_circle()
    ensures { ForestsHaveNoCircle }
{}
