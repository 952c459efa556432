//! Why a tree has no typed program, and the first of several refusals.

ghost use Rattle.std.specs.Prelude.{◌≡◌, ◌∷◌, [], None};
ghost use Rattle.sp_types.specs.Expressions.{told, count_refusals};
ghost use Rattle.sp_types.specs.First.{precedes, note, notes, one_if, rank};

use sp_words::Ty;

/// What stands where another type is wanted: an expression of a type, or a literal that has no word of the
/// wanted type.
#[derive(Clone, Copy, Debug, PartialEq, Eq, Hash)]
pub enum Found {
    Typed(Ty),
    Literal,
}

/// A rule that a place breaks.
#[derive(Clone, Copy, Debug, PartialEq, Eq, Hash)]
pub enum Rule {
    /// A name that isn't visible.
    UnknownName,
    /// A name that is given where it is visible already.
    Twice,
    /// A name of a kind that can't be used so.
    Misused,
    /// So many indices, spans, ranges or names are wanted, and so many are there.
    Rank { want: u32, got: u32 },
    /// An expression of one type where another is wanted.
    TypeClash { want: Ty, got: Found },
    /// Lanes where there can't be any.
    ParPlace,
}

/// A place of the text, and the rule that it breaks.
#[derive(Clone, Copy, Debug, PartialEq, Eq, Hash)]
pub struct Refusal {
    pub at: u32,
    pub rule: Rule,
}

/// The order of the rules at one place.
fn rank(rule: Rule) -> u8
    ensures { result ≡ rank rule }
{
    match rule {
        Rule::UnknownName => 0,
        Rule::Twice => 1,
        Rule::Misused => 2,
        Rule::Rank { .. } => 3,
        Rule::TypeClash { .. } => 4,
        Rule::ParPlace => 5,
    }
}

fn precedes(refusal: Refusal, other: Refusal) -> bool
    ensures { result ≡ precedes refusal other }
{
    refusal.at < other.at || (refusal.at == other.at && rank(refusal.rule) < rank(other.rule))
}

/// The first of one more refusal and of those before it.
#[tactic(auto, unfolding(crate::specs::First::note))]
fn note(first: Option<Refusal>, refusal: Refusal) -> Option<Refusal>
    ensures { result ≡ note first refusal }
{
    match first {
        None => Some(refusal),
        Some(other) => Some(if precedes(refusal, other) {
            refusal
        } else {
            other
        }),
    }
}

/// A number as it is told in a refusal.
pub(crate) fn told(number: usize) -> u32
    ensures { result ≡ told number }
{
    number.min(4_294_967_295) as u32
}

/// The first refusal that was found so far.
#[derive(Clone, Copy, Debug)]
pub(crate) struct Finding {
    pub first: Option<Refusal>,
}

impl Finding {
    pub fn new() -> Finding
        ensures { result.first ≡ None }
    {
        Finding { first: None }
    }

    /// Notes that a place breaks a rule, if it does.
    #[tactic(auto, unfolding(crate::specs::First::notes))]
    pub fn note_if(&mut self, breaks: bool, at: u32, rule: Rule)
        ensures { self.new.first ≡ notes self.old.first (one_if breaks (record { at = at; rule = rule })) }
    {
        if breaks {
            self.first = note(self.first, Refusal { at, rule });
        }
    }

    /// Notes another number than is wanted.
    pub fn note_count(&mut self, at: u32, want: usize, got: usize)
        ensures { self.new.first ≡ notes self.old.first (count_refusals at want got) }
    {
        let rule = Rule::Rank {
            want: told(want),
            got: told(got),
        };
        self.note_if(want != got, at, rule);
    }
}
