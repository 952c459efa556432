//! That a program has one plan and one report.

ghost use Rattle.sp_one_report.specs.Laws.{CoresHaveOneListOfMeets, ProgramsHaveOnePlan, ProgramsHaveOneReport, TextsHaveOneReport};

use sp_one_plan::cores_have_one_plan;
use sp_source::texts_spell_one_program;

/// The meets of a core are one list for the forms of its accesses, in one order.
pub fn cores_have_one_list_of_meets()
    ensures { CoresHaveOneListOfMeets }
{}

/// A program has one plan, by the rules by which it is chosen.
pub fn programs_have_one_plan()
    ensures { ProgramsHaveOnePlan }
{
    cores_have_one_plan();
}

/// A program has one report: the text is a function of the program.
pub fn programs_have_one_report()
    ensures { ProgramsHaveOneReport }
{
    cores_have_one_plan();
}

/// The text of a program has one report: what is reported is a function of the text's bytes.
pub fn texts_have_one_report()
    ensures { TextsHaveOneReport }
{
    cores_have_one_plan();
    texts_spell_one_program();
}
