//! Laws of plans. Each function does nothing: what it ensures is the law.

ghost use Rattle.sp_plans.specs.Laws.{ChosenAreValid, CopiesAreFew, ValidByParts};

use sp_depths::depths_are_right;
use sp_sched::least_plans_are_right;
use sp_schemes::chosen_schemes_are_right;
use sp_stages::{divided_slots_are_finest, finest_plans_are_right, stages_are_in_place};

/// A plan with chosen schemes, best plans of its nodes, and the copies and duplicates that these ask is valid.
pub fn chosen_plans_are_valid()
    ensures { ChosenAreValid }
{
    chosen_schemes_are_right();
    least_plans_are_right();
    finest_plans_are_right();
    depths_are_right();
}

/// By the best plans of the nodes no memory has more copies than a core may have nodes, since no body has more slots than
/// stages.
pub fn best_plans_have_few_copies()
    ensures { CopiesAreFew }
{
    divided_slots_are_finest();
    stages_are_in_place();
}

/// A plan is valid exactly where each node keeps its rules, each scheme serves its memory alone, and each memory has the
/// copies and the duplicates that are asked.
pub fn plans_are_valid_by_parts()
    ensures { ValidByParts }
{
    depths_are_right();
}
