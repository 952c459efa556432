//! What the circuit of an inner body does in a group. Each function does nothing: what it ensures is the law.

ghost use Rattle.sp_part_runs.specs.ActsLaws.{AccessesAgree, EntriesAreDone, WordsAgree};

/// The entries of a list that ran are what its operations did, one by one.
pub fn entries_are_done()
    ensures { EntriesAreDone }
{}

/// The words of a group over the nets of a run are those of its entries, up to the cycle up to which reads are answered.
pub fn words_agree()
    ensures { WordsAgree }
{}

/// An access acts at its time after the issue of its group exactly where the core made it, with the words that it took.
pub fn accesses_agree()
    ensures { AccessesAgree }
{}
