//! Worked trees. Each function does nothing: what it ensures are the typed programs of trees, most of which are worked
//! programs of other layers, and the others were written by hand.

ghost use Rattle.std.specs.Prelude.{◌≡◌, [], ◌∷◌, codes, true, false, Some, None};
ghost use Rattle.sp_words.specs.declared.kind.BinOp.TheVariants as binary;
ghost use Rattle.sp_words.specs.declared.kind.Kind.TheVariants as kind;
ghost use Rattle.sp_words.specs.declared.kind.Style.TheVariants.{Sequential};
ghost use Rattle.sp_words.specs.declared.kind.UnOp.TheVariants as unary;
ghost use Rattle.sp_words.specs.declared.types.Ty.TheVariants.{Bit};
ghost use Rattle.sp_words.specs.Types.{int_type};
ghost use Rattle.sp_reader.specs.declared.syntax.expression.SynUn.TheVariants.{Bang};
ghost use Rattle.sp_reader.specs.PlainTree as tree;
ghost use Rattle.sp_tree.specs.declared.statement.Comb.TheVariants.{Min};
ghost use Rattle.sp_tree.specs.ExampleForms as plain;
ghost use Rattle.sp_tree.specs.ExampleForms.{named};
ghost use Rattle.sp_tree.specs.ExampleLoops as loops;
ghost use Rattle.sp_tree.specs.ExampleStreams as streams;
ghost use Rattle.sp_tree.specs.ExampleTransfers as transfers;
ghost use Rattle.sp_tree.specs.PlainExpression as program;
ghost use Rattle.sp_tree.specs.PlainStatement as statement;
ghost use Rattle.sp_types.specs.ExampleForms.{ident, bit, int, fixed, num, minus, point, var, yes, bin, at, take};
ghost use Rattle.sp_types.specs.Visible.{memory, value, counter};
ghost use Rattle.sp_typed.specs.ExampleForms.{quarters, halves};
ghost use Rattle.sp_typed.specs.Expressions.{typed};
ghost use Rattle.sp_typed.specs.Named.{give, at_start};
ghost use Rattle.sp_typed.specs.Programs.{program_of};
ghost use Rattle.sp_typed.specs.Worked as worked;

/// The programs of trees.
pub fn worked_programs()
    ensures sum { program_of worked.sum ≡ named loops.sum_program (codes "x" ∷ codes "y" ∷ []) [] [] }
    ensures counting_down { program_of worked.counting_down ≡ named loops.counting_down (codes "x" ∷ codes "y" ∷ codes "n" ∷ []) (codes "s" ∷ codes "s" ∷ codes "s" ∷ []) [] }
    ensures folded { program_of worked.folded ≡ named loops.folded (codes "y" ∷ codes "acc" ∷ []) [] (codes "i" ∷ []) }
    ensures register_between { program_of worked.register_between ≡ named loops.register_between (codes "o" ∷ codes "r" ∷ codes "s" ∷ []) [] (codes "i" ∷ []) }
    ensures queued { program_of worked.queued ≡ named (loops.queued 4) (codes "o" ∷ codes "f" ∷ codes "s" ∷ []) [] (codes "i" ∷ codes "i" ∷ []) }
    ensures memory_reduced { program_of worked.memory_reduced ≡ named loops.memory_reduced (codes "o" ∷ codes "acc" ∷ codes "p" ∷ []) [] (codes "k" ∷ codes "i" ∷ []) }
    ensures dot_product { program_of worked.dot_product ≡ named transfers.dot_product (codes "a" ∷ codes "b" ∷ codes "y" ∷ codes "acc" ∷ codes "ta" ∷ codes "tb" ∷ codes "part" ∷ []) [] (codes "t" ∷ codes "i" ∷ []) }
    ensures histogram { program_of worked.histogram ≡ named transfers.histogram (codes "d" ∷ codes "h" ∷ codes "s" ∷ codes "c" ∷ []) (codes "v" ∷ []) (codes "i" ∷ codes "i" ∷ []) }
    ensures line_filter { program_of worked.line_filter ≡ named (transfers.line_filter 5 144) (codes "img" ∷ codes "res" ∷ codes "lb" ∷ codes "o" ∷ codes "s" ∷ []) [] (codes "r" ∷ codes "c" ∷ codes "i" ∷ codes "j" ∷ []) }
    ensures scattered { program_of worked.scattered ≡ named streams.scattered (codes "a" ∷ codes "q" ∷ codes "b" ∷ codes "p" ∷ codes "s" ∷ []) [] [] }
    ensures streamed { (program_of worked.streamed).body ≡ streams.streamed.body }
    ensures widely_copied { program_of worked.widely_copied ≡ named streams.widely_copied (codes "a" ∷ codes "b" ∷ codes "s" ∷ []) [] (codes "t" ∷ []) }
{}

/// Places, and numbers of values of one name.
pub fn worked_numbers()
    ensures places { (program_of worked.places).body ≡ statement.more_stmt (statement.stmt 49 (statement.set_out 1 (program.expr 54 int_type (program.two binary.Add (program.expr 54 int_type (program.get_arg 0)) (program.expr 58 int_type (program.two binary.Mul (program.expr 58 int_type (program.literal 3)) (program.expr 62 int_type (program.one unary.Neg (program.expr 63 int_type (program.get_arg 0)))))))))) statement.no_stmt }
    ensures places_of_ports { (program_of worked.places).mems ≡ record { name = codes "x"; kind = kind.ArgIn; ty = int_type; dims = []; start = None; place = 0 } ∷ record { name = codes "y"; kind = kind.ArgOut; ty = int_type; dims = []; start = None; place = 20 } ∷ [] }
    ensures one_name { (program_of worked.one_name).body ≡ plain.stmts (plain.here (statement.branch (program.expr 0 Bit (program.literal 1)) (plain.stmts (plain.here (statement.name 0 (plain.lit 1)) ∷ plain.here (statement.set_out 0 (plain.val 0)) ∷ [])) (plain.stmts (plain.here (statement.name 1 (plain.lit 2)) ∷ plain.here (statement.set_out 0 (plain.val 1)) ∷ []))) ∷ plain.here (statement.name 2 (plain.lit 3)) ∷ plain.here (statement.set_out 0 (plain.val 2)) ∷ []) }
    ensures four_values { (program_of worked.four_values).body ≡ plain.stmts (plain.here (statement.fsm (plain.lit 0) 0 (program.expr 0 Bit (program.two binary.Lt (plain.val 0) (plain.lit 4))) 1 (plain.stmts (plain.here (statement.name 2 (plain.val 1)) ∷ plain.here (statement.set_out 0 (plain.val 2)) ∷ [])) 3 (plain.add (plain.val 3) (plain.lit 1))) ∷ plain.here (statement.name 4 (plain.lit 5)) ∷ plain.here (statement.set_out 0 (plain.val 4)) ∷ []) }
    ensures names_of_values { (program_of worked.four_values).vals ≡ codes "a" ∷ codes "b" ∷ codes "c" ∷ codes "d" ∷ codes "e" ∷ [] }
    ensures least_sum { (program_of worked.least_sum).body ≡ plain.stmts (plain.here (statement.declare 1) ∷ plain.here (statement.reduce Sequential true 1 (plain.from 0 (program.expr 7 int_type (program.literal 1)) (program.expr 15 int_type (program.literal 5)) 2 1 ∷ plain.from 1 (program.expr 23 int_type (program.literal 0)) (program.expr 23 int_type (program.literal 4)) 1 2 ∷ []) statement.no_stmt (plain.add (plain.count 0) (plain.count 1)) Min) ∷ plain.here (statement.set_out 0 (plain.reg 1)) ∷ []) }
    ensures start_of_a_register { (program_of worked.least_sum).mems ≡ record { name = codes "y"; kind = kind.ArgOut; ty = int_type; dims = []; start = None; place = 0 } ∷ record { name = codes "m"; kind = kind.Reg; ty = int_type; dims = []; start = Some 9; place = 0 } ∷ [] }
{}

/// Expressions, where `x` is an argument with two bits after the point, the third memory.
pub fn worked_expressions()
    ensures down_to_a_quarter { typed at_start quarters (tree.expr 3 (tree.number (record { place = 3; negative = true; whole = 1; digits = 3 ∷ [] }))) ≡ program.expr 3 quarters (program.literal 1018) }
    ensures literal_that_is_cast { typed at_start halves (tree.expr 3 (tree.cast (point 4 1 (7 ∷ [])) (fixed 9 false 4 1))) ≡ program.expr 3 halves (program.literal 3) }
    ensures cast_of_a_sum { typed (give at_start (codes "x") (memory kind.ArgIn (Some quarters) []) 2) int_type (tree.expr 3 (tree.cast (bin binary.Add 4 (var 4 (codes "x")) (num 8 1)) int)) ≡ program.expr 3 int_type (program.cast (program.expr 4 quarters (program.two binary.Add (program.expr 4 quarters (program.get_arg 2)) (program.expr 8 quarters (program.literal 4))))) }
    ensures literal_before_what_it_is_compared_with { typed (give at_start (codes "x") (memory kind.ArgIn (Some quarters) []) 2) Bit (bin binary.Lt 3 (num 3 1) (var 7 (codes "x"))) ≡ program.expr 3 Bit (program.two binary.Lt (program.expr 3 quarters (program.literal 4)) (program.expr 7 quarters (program.get_arg 2))) }
    ensures compared_literals { typed at_start Bit (tree.expr 2 (tree.one Bang (bin binary.Eq 3 (num 3 1) (num 8 2)))) ≡ program.expr 2 Bit (program.one unary.Not (program.expr 3 Bit (program.two binary.Eq (program.expr 3 int_type (program.literal 1)) (program.expr 8 int_type (program.literal 2))))) }
    ensures choice { typed (give at_start (codes "x") (value (Some quarters)) 5) quarters (tree.expr 2 (tree.mux (yes 6) (var 12 (codes "x")) (num 15 2))) ≡ program.expr 2 quarters (program.mux (program.expr 6 Bit (program.literal 1)) (program.expr 12 quarters (program.value 5)) (program.expr 15 quarters (program.literal 8))) }
    ensures least { typed (give at_start (codes "i") counter 1) int_type (tree.expr 2 (tree.min (var 6 (codes "i")) (tree.expr 9 (tree.shift false (var 9 (codes "i")) 3)))) ≡ program.expr 2 int_type (program.two binary.Min (program.expr 6 int_type (program.counter 1)) (program.expr 9 int_type (program.shift false (program.expr 9 int_type (program.counter 1)) 3))) }
{}
