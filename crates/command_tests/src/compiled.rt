use crate::cases::CASES;
use crate::commands::Answer;
use crate::stores::STORES;
use sp_edges::{MemFile, MemInputs, MemSink};
use sp_top::spatialc;
use std::alloc::{AllocError, Global};
use std::test::Fail;

fn file(alloc: Global, name: &str, bytes: &[u8]) -> Result<MemFile, AllocError> {
    Ok(MemFile {
        name: String::from_str(alloc, name)?,
        bytes: Vec::from_slice(alloc, bytes)?,
    })
}

/// A file of rows, from its line.
fn rows(alloc: Global, line: &str) -> Result<MemFile, Fail> {
    let (name, text) = line.split_once('|').ok_or("a file")?;
    let mut bytes = Vec::new(alloc);
    for row in text.split(";") {
        bytes.extend_from_slice(row.as_bytes())?;
        bytes.push(b'\n')?;
    }
    Ok(MemFile {
        name: String::from_str(alloc, name)?,
        bytes,
    })
}

/// A call with a file to work on and a setup, and the files that the setup names.
#[derive(Drop)]
struct Files<'a> {
    name: &'a str,
    bytes: &'a [u8],
    setup: &'a str,
    others: &'a str,
}

fn call(alloc: Global, words: &str, given: &Files) -> Result<Answer, Fail> {
    let mut said = Vec::new(alloc);
    for word in words.split(" ") {
        said.push(String::from_str(alloc, word)?)?;
    }
    let first = file(alloc, given.name, given.bytes)?;
    let second = file(alloc, "S", given.setup.as_bytes())?;
    let mut files = vec![in alloc; first, second]?;
    for line in given.others.lines() {
        files.push(rows(alloc, line)?)?;
    }
    let mut inputs = MemInputs::new(files, Vec::new(alloc));
    let mut out = MemSink::new(alloc, 1_000_000, Vec::new(alloc))?;
    let mut aside = MemSink::new(alloc, 1_000_000, Vec::new(alloc))?;
    let status = spatialc(alloc, &said, &mut inputs, &mut out, &mut aside);
    Ok(Answer {
        status,
        out: Vec::from_slice(alloc, out.bytes())?,
        aside: Vec::from_slice(alloc, aside.bytes())?,
    })
}

/// Whether a result is these lines and a line of cycles with a number that is wanted, exactly or at most.
fn is_result(text: &str, lines: &str, wanted: &str) -> Option<bool> {
    let cycles = text.strip_prefix(lines)?.strip_prefix("cycles ")?;
    let cycles = cycles.strip_suffix("\n")?.parse::<u64>().ok()?;
    match wanted.strip_prefix("=") {
        Some(exact) => Some(cycles == exact.parse::<u64>().ok()?),
        None => Some(cycles <= wanted.strip_prefix("<")?.parse::<u64>().ok()?),
    }
}

/// Whether a program, compiled and run, leaves what is wanted; `compile` gives the listing that `run` puts aside, and `simulate` runs it
/// to the same result.
fn runs_as_wanted(alloc: Global, case: &str) -> Result<bool, Fail> {
    let mut parts = case.split("----\n");
    let program = parts.next().ok_or("a program")?;
    let setup = parts.next().ok_or("a setup")?;
    let lines = parts.next().ok_or("lines")?;
    let wanted = parts.next().ok_or("cycles")?.trim();
    let others = parts.next().unwrap_or("");
    let source = Files {
        name: "P",
        bytes: program.as_bytes(),
        setup,
        others,
    };
    let ran = call(alloc, "run P S", &source)?;
    let text = str::from_utf8(&ran.out)?;
    let is_right = is_result(text, lines, wanted).ok_or("a result")?;
    let compiled = call(alloc, "compile P", &source)?;
    let listing = Files {
        name: "L",
        bytes: &ran.aside,
        setup,
        others,
    };
    let again = call(alloc, "simulate L S", &listing)?;
    Ok(
        ran.status.number() == 0
            && is_right
            && ran.aside.starts_with(b"netlist 1\nin ")
            && compiled.out.as_slice() == ran.aside.as_slice()
            && again.out.as_slice() == ran.out.as_slice(),
    )
}

#[test]
fn compiled_programs_leave_what_is_wanted(rt: HostRuntime) -> Result<(), Fail> {
    let alloc = rt.alloc();
    let mut count = 0u32;
    for cases in [CASES, STORES] {
        for case in cases.split("====\n") {
            assert!(rt; runs_as_wanted(alloc, case)?, "{case}");
            count = count.saturating_add(1);
        }
    }
    assert_eq!(rt; count, 30);
    Ok(())
}
