//! The command line of the compiler: the words, the machine's files and standard output are handed to the top
//! call, and the program ends with the number of its status.
#![tactic(auto)]

use sp_edges::{HostInputs, HostSink};
use sp_top::spatialc;
use std::alloc::Global;
use std::env;
use std::io::ErrorKind;
use std::process::ExitCode;

/// The file that a command's second text goes to.
const ASIDE: &str = "run.net";

/// The number with which the program ends where memory for its words isn't found.
const NO_MEMORY: u8 = 10;

/// The number with which it ends where the system refuses the words for another cause.
const NO_WORDS: u8 = 16;

// The words after the program's name, or the number to end with. Words that aren't text are in no row of the
// command table, as no words are.
fn words_of(rt: &HostRuntime, alloc: Global) -> Result<Vec<String>, u8> {
    match env::args(rt) {
        Ok(all) => all.skip(1).collect(alloc).map_err(|_| NO_MEMORY),
        Err(error) => match error.kind() {
            ErrorKind::InvalidData => Ok(Vec::new(alloc)),
            ErrorKind::OutOfMemory => Err(NO_MEMORY),
            _ => Err(NO_WORDS),
        },
    }
}

fn main(rt: HostRuntime) -> ExitCode {
    let alloc = rt.alloc();
    let words = match words_of(&rt, alloc) {
        Ok(words) => words,
        Err(number) => return ExitCode::from(number),
    };
    let mut inputs = HostInputs::new(&rt, alloc);
    let mut out = HostSink::stdout(&rt, alloc);
    let mut aside = HostSink::file(&rt, alloc, ASIDE);
    let status = spatialc(alloc, &words, &mut inputs, &mut out, &mut aside);
    ExitCode::from(status.number())
}
