//! Worked trees. The function does nothing: what it ensures is that the trees have no refusals, so that the laws say
//! something of them.

ghost use Rattle.std.specs.Prelude.{◌≡◌, []};
ghost use Rattle.sp_types.specs.Statements.{refusals};
ghost use Rattle.sp_typed.specs.Worked as worked;

/// Trees that have no refusals.
pub fn worked_trees_are_right()
    ensures sum { refusals worked.sum ≡ [] }
    ensures places { refusals worked.places ≡ [] }
    ensures counting_down { refusals worked.counting_down ≡ [] }
    ensures folded { refusals worked.folded ≡ [] }
    ensures register_between { refusals worked.register_between ≡ [] }
    ensures queued { refusals worked.queued ≡ [] }
    ensures memory_reduced { refusals worked.memory_reduced ≡ [] }
    ensures dot_product { refusals worked.dot_product ≡ [] }
    ensures histogram { refusals worked.histogram ≡ [] }
    ensures line_filter { refusals worked.line_filter ≡ [] }
    ensures scattered { refusals worked.scattered ≡ [] }
    ensures streamed { refusals worked.streamed ≡ [] }
    ensures widely_copied { refusals worked.widely_copied ≡ [] }
    ensures one_name { refusals worked.one_name ≡ [] }
    ensures four_values { refusals worked.four_values ≡ [] }
    ensures least_sum { refusals worked.least_sum ≡ [] }
{}
