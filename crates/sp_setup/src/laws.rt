//! Laws of number texts and of setups. A law is a function whose contract is the law, and whose body is empty.
ghost use Rattle.std.specs.Prelude.{◌≡◌, ℕ, Bool, List, Some, String, ⊤, codes};
ghost use Rattle.std.specs.declared.alloc.Global.{Global};
ghost use Rattle.toml.specs.Data.{Members};
ghost use Rattle.sp_words.specs.Decimal.{digits_number};
ghost use Rattle.sp_words.specs.NumberText.{IsNumberText};
ghost use Rattle.sp_edges.specs.Standing.{Standing};
ghost use Rattle.sp_words.specs.Ports.{PlainPorts};
ghost use Rattle.sp_setup.specs.declared.error.SetupError.{SetupError};
ghost use Rattle.sp_setup.specs.declared.error.SetupEnd.TheVariants.{Refused, TooLong};
ghost use Rattle.sp_setup.specs.Checks.{count_of, integer_at};
ghost use Rattle.sp_setup.specs.Setup.{PlainSetup, IsSetup, SetupEnds, IsDocument, IsNoDocument, files_named};
ghost use Rattle.sp_setup.specs.Laws.{AreTold};
ghost use Rattle.sp_setup.specs.Number.{NumberParts, number_parts, HasParts};

/// Bytes have parts exactly where they are a number text, and the parts are those of the text.
pub fn number_texts_have_parts()
    ensures only { (bytes : List ℕ) (parts : NumberParts) → number_parts bytes ≡ Some parts
        → IsNumberText bytes parts.negative (digits_number parts.whole) parts.fraction }
    ensures every { (bytes : List ℕ) (negative : Bool) (whole : ℕ) (fraction : List ℕ) → IsNumberText bytes negative whole fraction
        → HasParts bytes negative whole fraction }
{}

/// Where the files that a document names are told, bytes that give a setup aren't refused, whatever may have failed and
/// was asked: a setup and each refusal exclude each other. Nor is one of the files too long.
pub fn setups_are_not_refused()
    ensures refused { (told : List ℕ → Standing) (ports : PlainPorts) (bytes : List ℕ) (plain : PlainSetup) (e : SetupError) → AreTold told (files_named ports bytes)
        → IsSetup told ports bytes plain → SetupEnds told (λ _. ⊤) (λ _. ⊤) ports bytes (Refused e) → ⊥ }
    ensures too_long { (told : List ℕ → Standing) (ports : PlainPorts) (bytes : List ℕ) (plain : PlainSetup) (name : String Global) → AreTold told (files_named ports bytes)
        → IsSetup told ports bytes plain → SetupEnds told (λ _. ⊤) (λ _. ⊤) ports bytes (TooLong name) → ⊥ }
{}

/// Where the files that a document names are told, bytes give at most one setup.
pub fn setups_are_one()
    ensures { (told : List ℕ → Standing) (ports : PlainPorts) (bytes : List ℕ) (one other : PlainSetup) → AreTold told (files_named ports bytes)
        → IsSetup told ports bytes one → IsSetup told ports bytes other → one ≡ other }
{}

/// A text with one count is a document in which the count is read; one whose count is missing is none.
pub fn documents_are_told_apart()
    ensures one { (top : Members) × IsDocument (codes "turns = 7") top × (count_of (integer_at (codes "turns") top) ≡ 7) }
    ensures none { IsNoDocument (codes "turns = ") }
{}
