use sp_edges::{MemFile, MemInputs};
use sp_setup::{Setup, SetupEnd, dram_sizes_fit, read};
use sp_words::{FixTy, PortDecl, Ports, Ty};
use std::alloc::{AllocError, Global};
use std::process::Abort;
use std::test::Fail;

fn field<'a>(rt: &impl Abort, found: Option<&'a str>) -> &'a str {
    found.expect(rt, "a field")
}

fn count(rt: &impl Abort, found: Option<&str>) -> u32 {
    field(rt, found).parse().ok().expect(rt, "a number")
}

fn type_of(rt: &impl Abort, name: &str) -> Ty {
    match name {
        "bit" => Ty::Bit,
        "u64" => Ty::Fix(FixTy::new(false, 64, 0).expect(rt, "a type")),
        "s8.8" => Ty::Fix(FixTy::new(true, 8, 8).expect(rt, "a type")),
        _ => Ty::Fix(FixTy::new(true, 32, 0).expect(rt, "a type")),
    }
}

// Adds a port of this name and these dimensions.
fn add(
    alloc: Global,
    ports: &mut Vec<PortDecl>,
    name: &str,
    ty: Ty,
    dims: Vec<u32>,
) -> Result<(), AllocError> {
    ports.push(PortDecl {
        name: String::from_str(alloc, name)?,
        ty,
        dims,
    })?;
    Ok(())
}

// The arguments `x` and `z`, as many as asked for, and where there are words the DRAMs `a` and `b` with so many.
fn ports_of(alloc: Global, ty: Ty, args: u32, words: u32) -> Result<Ports, AllocError> {
    let mut ports = Ports {
        args: Vec::new(alloc),
        outs: Vec::new(alloc),
        drams: Vec::new(alloc),
    };
    if args > 0 {
        add(alloc, &mut ports.args, "x", ty, Vec::new(alloc))?;
    }
    if args > 1 {
        add(alloc, &mut ports.args, "z", ty, Vec::new(alloc))?;
    }
    if words > 0 {
        add(alloc, &mut ports.drams, "a", ty, vec![in alloc; words; 1]?)?;
        add(alloc, &mut ports.drams, "b", ty, vec![in alloc; words; 1]?)?;
    }
    Ok(ports)
}

// A text whose lines are written with `;` between them.
fn lines_of(alloc: Global, text: &str) -> Result<String, AllocError> {
    let mut lines = String::new(alloc);
    for line in text.split(";") {
        lines.push_str(line)?;
        lines.push('\n')?;
    }
    Ok(lines)
}

fn push_numbers(text: &mut String, name: &str, numbers: &[u64]) -> Result<(), AllocError> {
    text.push_str(name)?;
    for number in numbers {
        write!(text, " {number}")?;
    }
    Ok(())
}

fn setup_text(alloc: Global, setup: &Setup) -> Result<String, AllocError> {
    let mut text = String::new(alloc);
    write!(text, "{} {}", setup.turns, setup.cycles)?;
    for delay in &setup.delays {
        write!(text, " delay {delay}")?;
    }
    push_numbers(&mut text, " args", &setup.input.args)?;
    for words in &setup.input.drams {
        push_numbers(&mut text, " dram", words)?;
    }
    Ok(text)
}

fn end_text(alloc: Global, end: &SetupEnd) -> Result<String, AllocError> {
    match end {
        SetupEnd::Refused(error) => format!(in alloc; "{error}"),
        SetupEnd::ReadFault => String::from_str(alloc, "read fault"),
        SetupEnd::TooLong { name } => format!(in alloc; "too long {name}"),
        SetupEnd::Memory => String::from_str(alloc, "memory"),
    }
}

fn inputs_of(alloc: Global, file: &str) -> Result<MemInputs, AllocError> {
    let mut files = Vec::new(alloc);
    files.push(MemFile {
        name: String::from_str(alloc, "f")?,
        bytes: Vec::from_slice(alloc, file.as_bytes())?,
    })?;
    Ok(MemInputs::new(files, Vec::new(alloc)))
}

// What a setup gives over one file `f`, as a text.
fn outcome(
    rt: &impl Abort,
    alloc: Global,
    ports: &Ports,
    text: &str,
    file: &str,
) -> Result<String, AllocError> {
    let mut inputs = inputs_of(alloc, file)?;
    assert!(rt; dram_sizes_fit(ports));
    match read(alloc, &mut inputs, ports, text.as_bytes()) {
        Ok(setup) => setup_text(alloc, &setup),
        Err(end) => end_text(alloc, &end),
    }
}

// A type, how many arguments of it there are, how many words in each of two DRAMs, a setup, the file `f`, and what
// is given: turns, cycles, delays and input, or the refusal. A `;` ends a line.
const ROWS: &str = "\
int|0|0|||10000000 10000000 args\n\
int|1|0|turns = 7;cycles = 5;delays = [7, 0, 1000];[args];x = 4||7 5 delay 7 delay 0 delay 1000 args 4\n\
int|1|0|||missing args.x\n\
int|1|0|[args];x = 2147483648||range args.x at 0\n\
int|1|0|[args];x = 4;z = 1||key args.z\n\
int|1|0|[args];x = = 1||no toml\n\
int|1|0|[args];x = 4;x = 4||no toml\n\
int|1|0|turns = 0;[args];x = 4||range turns at 0\n\
int|1|0|turns = 10000001;[args];x = 4||range turns at 0\n\
int|1|0|turns = 1;cycles = 1;[args];x = 4||1 1 args 4\n\
int|1|0|turns = 10000000;cycles = 1000000000;[args];x = 4||10000000 1000000000 args 4\n\
int|1|0|cycles = 0;[args];x = 4||range cycles at 0\n\
int|1|0|cycles = 1000000001;[args];x = 4||range cycles at 0\n\
int|1|0|delays = [0, 1000001];[args];x = 4||range delays at 1\n\
int|1|0|delays = [0, 1000000];[args];x = 4||10000000 10000000 delay 0 delay 1000000 args 4\n\
int|1|0|delays = [-1];[args];x = 4||range delays at 0\n\
int|1|0|[args];x = '4.75'||10000000 10000000 args 4\n\
int|1|0|[args];x = '-0.5'||10000000 10000000 args 4294967295\n\
int|1|0|[args];x = -2147483648||10000000 10000000 args 2147483648\n\
int|1|0|[args];x = -2147483649||range args.x at 0\n\
int|1|0|[args];x = 2147483647||10000000 10000000 args 2147483647\n\
int|1|0|[args];x = '2147483647.999'||10000000 10000000 args 2147483647\n\
int|1|0|[args];x = '-2147483648.001'||range args.x at 0\n\
int|1|0|[args];x = true||key args.x\n\
int|1|0|[args];x = 1.5||key args.x\n\
int|1|0|[args];x = '1..2'||key args.x\n\
int|1|0|[args];x = ' 1'||key args.x\n\
int|1|0|[args];x = '1.'||key args.x\n\
int|1|0|[args];x = '4294967296'||range args.x at 0\n\
int|1|0|[args];x = '340282366920938463463374607431768211456'||range args.x at 0\n\
int|1|0|[args];x = '4.0000000000000000000000000000000000000000000000000000000000000001'||10000000 10000000 args 4\n\
int|1|0|[args];x = '4.00000000000000000000000000000000000000000000000000000000000000001'||range args.x at 0\n\
int|1|0|zz = 1;turns = 0;cycles = 0||key zz\n\
int|1|0|turns = 1.5;cycles = 'a'||key cycles\n\
int|1|0|turns = 0;cycles = 0;[args];z = 1||range turns at 0\n\
int|2|0|[args];q = 1;z = 'a'||key args.q\n\
int|1|2|[args];x = 'a';[dram];q = 'f'||key args.x\n\
s8.8|2|0|[args];x = '1.5';z = '-2.25'||10000000 10000000 args 384 64960\n\
s8.8|2|0|[args];x = '0.00390625';z = '-0.00390625'||10000000 10000000 args 1 65535\n\
s8.8|2|0|[args];x = 127;z = 128||range args.z at 0\n\
s8.8|2|0|[args];x = '127.999';z = -128||10000000 10000000 args 32767 32768\n\
s8.8|1|0|[args];x = '-128.001'||range args.x at 0\n\
bit|2|0|[args];x = 1;z = 'true'||10000000 10000000 args 1 1\n\
bit|2|0|[args];x = false;z = '0.5'||10000000 10000000 args 0 0\n\
bit|2|0|[args];x = 2;z = 0||range args.x at 0\n\
bit|2|0|[args];x = 'yes';z = 0||key args.x\n\
u64|1|0|[args];x = -1||range args.x at 0\n\
u64|1|0|[args];x = '18446744073709551615'||10000000 10000000 args 18446744073709551615\n\
u64|1|0|[args];x = '18446744073709551616'||range args.x at 0\n\
u64|0|2|[dram];a = 'f'|18446744073709551615,0|10000000 10000000 args dram 18446744073709551615 0 dram 0 0\n\
int|0|3||1,2,3|10000000 10000000 args dram 0 0 0 dram 0 0 0\n\
int|0|3|[dram];b = 'f'| 1 ,\t2;;-1\t|10000000 10000000 args dram 0 0 0 dram 1 2 4294967295\n\
int|0|8|[dram];a = 'f'|0,1,1,3,1,0,2|size dram.a, want 8, got 7\n\
int|0|8|[dram];a = 'f'||size dram.a, want 8, got 0\n\
int|0|1|[dram];a = 'f'|1,2|size dram.a, want 1, got 2\n\
int|0|8|[dram];a = 'f'|1,2;3,four|csv dram.a row 2\n\
int|0|8|[dram];a = 'f'|1,2;3,2147483648|range dram.a at 3\n\
int|0|2|[dram];a = 'f'|1,,2|csv dram.a row 1\n\
int|0|2|[dram];a = 'g';b = 'f'|x|read fault\n\
int|0|2|[dram];a = 1;q = 'f'|1,2|key dram.a\n\
int|0|2|[dram];q = 'f'|1,2|key dram.q\n";

#[test]
fn a_setup_is_read_or_refused_by_its_first_wrong_part(rt: HostRuntime) -> Result<(), Fail> {
    let alloc = rt.alloc();
    for row in ROWS.lines() {
        let mut fields = row.split("|");
        let ty = type_of(&rt, field(&rt, fields.next()));
        let args = count(&rt, fields.next());
        let ports = ports_of(alloc, ty, args, count(&rt, fields.next()))?;
        let text = lines_of(alloc, field(&rt, fields.next()))?;
        let file = lines_of(alloc, field(&rt, fields.next()))?;
        let given = outcome(&rt, alloc, &ports, text.as_str(), file.as_str())?;
        assert_eq!(rt; given.as_str(), field(&rt, fields.next()), "{row}");
    }
    Ok(())
}

// A setup of so many delays.
fn delays_text(alloc: Global, count: u32) -> Result<String, AllocError> {
    let mut text = String::from_str(alloc, "delays = [")?;
    for _place in 0..count {
        text.push_str("0,")?;
    }
    text.push_str("]\n")?;
    Ok(text)
}

#[test]
fn a_setup_has_at_most_100_000_delays(rt: HostRuntime) -> Result<(), Fail> {
    let alloc = rt.alloc();
    let ports = ports_of(alloc, type_of(&rt, "int"), 0, 0)?;
    let text = delays_text(alloc, 100_001)?;
    let given = outcome(&rt, alloc, &ports, text.as_str(), "")?;
    assert_eq!(rt; given.as_str(), "range delays at 100000");
    let text = delays_text(alloc, 100_000)?;
    let mut inputs = inputs_of(alloc, "")?;
    assert!(rt; dram_sizes_fit(&ports));
    match read(alloc, &mut inputs, &ports, text.as_bytes()) {
        Ok(setup) => assert_eq!(rt; setup.delays.len(), 100_000),
        Err(end) => Err(end_text(alloc, &end)?.as_str())?,
    }
    Ok(())
}
