use sp_affine::Form;
use sp_core::{Core, CoreCounter, CoreError, CoreMem, CoreSpan, Node, Op, OpKind, Stage};
use sp_patterns::{CounterPlace, forms_of, patterns};
use sp_words::{BinOp, Kind, PortDecl, Ports, Style, Ty, UnOp};
use std::alloc::{AllocError, Global};
use std::process::Abort;
use std::test::Fail;

fn operands(alloc: Global, letter: &str, x: u32, y: u32) -> Result<Vec<u32>, AllocError> {
    let mut args = Vec::new(alloc);
    if letter == "W" || letter == "s" {
        args.push(y)?;
        return Ok(args);
    }
    if letter == "w" || letter == "c" || letter == "r" {
        return Ok(args);
    }
    args.push(x)?;
    if letter != "n" {
        args.push(y)?;
    }
    Ok(args)
}

// An operation by a letter and two numbers; the first or both are its operands, its memory or its lane.
fn op(rt: &impl Abort, alloc: Global, letter: &str, x: u32, y: u32) -> Result<Op, AllocError> {
    let kind = match letter {
        "w" => OpKind::Word(u64::from(x)),
        "c" => OpKind::Count(x, y),
        "r" => OpKind::Read,
        "s" => OpKind::Read,
        "W" => OpKind::Write,
        "n" => OpKind::One(UnOp::Neg),
        "+" => OpKind::Two(BinOp::Add),
        "-" => OpKind::Two(BinOp::Sub),
        "*" => OpKind::Two(BinOp::Mul),
        "/" => OpKind::Two(BinOp::Div),
        _ => panic!(rt; "no operation {letter}"),
    };
    let mem = match letter {
        "r" => Some(x),
        "s" => Some(x),
        "W" => Some(x),
        _ => None,
    };
    Ok(Op {
        kind,
        ty: Ty::int(),
        args: operands(alloc, letter, x, y)?,
        mem,
        mask: None,
    })
}

fn number(rt: &impl Abort, field: Option<&str>) -> u32 {
    field
        .expect(rt, "a field")
        .parse()
        .ok()
        .expect(rt, "a number")
}

fn ops_of(rt: &impl Abort, alloc: Global, text: &str) -> Result<Vec<Op>, AllocError> {
    let mut ops = Vec::new(alloc);
    for part in text.split(';') {
        let mut fields = part.split(' ');
        let letter = fields.next().expect(rt, "a letter");
        let x = number(rt, fields.next());
        let y = number(rt, fields.next());
        ops.push(op(rt, alloc, letter, x, y)?)?;
    }
    Ok(ops)
}

fn memory(alloc: Global, kind: Kind) -> Result<CoreMem, AllocError> {
    Ok(CoreMem {
        name: String::from_str(alloc, "m")?,
        kind,
        ty: Ty::int(),
        dims: Vec::new(alloc),
        start: None,
        written: true,
    })
}

// The symbol, the constant and the coefficients of two counters.
fn form(rt: &impl Abort, alloc: Global, text: &str) -> Result<Option<Form>, AllocError> {
    if text == "none" {
        return Ok(None);
    }
    let mut fields = text.split(' ');
    let symbol = fields.next().expect(rt, "a symbol").parse().ok();
    let constant = fields.next().expect(rt, "a constant").parse().ok();
    let mut coefs = Vec::new(alloc);
    for field in fields {
        coefs.push(field.parse().ok().expect(rt, "a coefficient"))?;
    }
    Ok(Some(Form {
        coefs,
        constant: constant.expect(rt, "a constant"),
        symbol,
    }))
}

// Memory 0 is an argument, 1 and 2 are registers, 3 is an SRAM. Counter 5 is an outer one, counter 6 the last one of its
// controller, in steps of 2. The form is that of the last operation.
const ROWS: &str = "\
w 5 0=>- 5 0 0\n\
w 4294967295 0=>- -1 0 0\n\
w 2147483648 0=>- -2147483648 0 0\n\
c 5 0=>- 0 1 0\n\
c 6 0=>- 0 0 1\n\
c 6 3=>- 6 0 1\n\
c 5 3=>- 0 1 0\n\
c 7 0=>none\n\
r 0 0=>0 0 0 0\n\
r 1 0=>1 0 0 0\n\
r 3 0=>none\n\
w 1 0;W 2 0;r 2 0=>none\n\
w 1 0;W 2 0;r 1 0=>1 0 0 0\n\
c 5 0;w 4 0;* 0 1;c 6 1;+ 2 3=>- 2 4 1\n\
c 6 0;w 1 0;- 0 1=>- -1 0 1\n\
w 1 0;c 6 0;- 0 1=>- 1 0 -1\n\
c 5 0;c 6 2;+ 0 1;n 2 0=>- -4 -1 -1\n\
w 3 0;c 5 0;* 0 1=>- 0 3 0\n\
c 5 0;c 6 0;* 0 1=>none\n\
c 5 0;w 2 0;/ 0 1=>none\n\
c 5 0;w 2 0;/ 0 1;w 1 0;+ 2 3=>none\n\
r 0 0;c 6 0;+ 0 1=>0 0 0 1\n\
r 0 0;r 1 0;+ 0 1=>none\n\
r 0 0;r 0 0;+ 0 1=>none\n\
r 0 0;r 0 0;- 0 1=>- 0 0 0\n\
r 0 0;n 0 0=>none\n\
c 5 0;r 0 0;- 0 1=>none\n\
r 0 0;w 0 0;* 0 1=>- 0 0 0\n\
r 0 0;w 1 0;* 0 1=>0 0 0 0\n\
r 0 0;w 2 0;* 0 1=>none\n\
w 2147483647 0;* 0 0;* 1 0=>none\n\
w 2147483647 0;* 0 0=>- 4611686014132420609 0 0\n\
w 1 0;+ 0 3=>none\n\
w 1 0;+ 0 1=>none";

#[test]
fn forms_of_worked_lists(rt: HostRuntime) -> Result<(), Fail> {
    let mems = vec![in rt.alloc();
        memory(rt.alloc(), Kind::ArgIn)?,
        memory(rt.alloc(), Kind::Reg)?,
        memory(rt.alloc(), Kind::Reg)?,
        memory(rt.alloc(), Kind::Sram)?,
    ]?;
    let places = [
        CounterPlace {
            id: 5,
            lane_step: 0,
        },
        CounterPlace {
            id: 6,
            lane_step: 2,
        },
    ];
    for (text, want) in ROWS.lines().filter_map(|line| line.split_once("=>")) {
        let ops = ops_of(&rt, rt.alloc(), text)?;
        let forms = forms_of(rt.alloc(), &mems, &ops, None, &places)?;
        let last = forms.last().expect(&rt, "an operation");
        assert_eq!(rt; *last, form(&rt, rt.alloc(), want)?, "{text}");
    }
    Ok(())
}

fn named(alloc: Global, name: &str, kind: Kind, words: &[u32]) -> Result<CoreMem, AllocError> {
    Ok(CoreMem {
        name: String::from_str(alloc, name)?,
        kind,
        ty: Ty::int(),
        dims: words.to_vec(alloc)?,
        start: None,
        written: true,
    })
}

fn port(alloc: Global, name: &str, words: &[u32]) -> Result<PortDecl, AllocError> {
    Ok(PortDecl {
        name: String::from_str(alloc, name)?,
        ty: Ty::int(),
        dims: words.to_vec(alloc)?,
    })
}

fn counter(
    rt: &impl Abort,
    alloc: Global,
    id: u32,
    until: &str,
    par: u32,
) -> Result<CoreCounter, AllocError> {
    Ok(CoreCounter {
        id,
        from: ops_of(rt, alloc, "w 0 0")?,
        until: ops_of(rt, alloc, until)?,
        by: par,
        par,
    })
}

fn stage(node: Node) -> Stage {
    Stage {
        first: 0,
        last: 0,
        comb: false,
        node,
    }
}

// Counter 5 goes from 0 to 3; in it a slice of the DRAM is loaded, 16 words from 16 times the counter on; then counter 6
// goes from 0 to below the argument, by 2 and in two lanes, around these operations.
fn core(rt: &impl Abort, alloc: Global, text: &str) -> Result<Result<Core, CoreError>, AllocError> {
    let slice = CoreSpan::Range(
        ops_of(rt, alloc, "c 5 0;w 16 0;* 0 1")?,
        ops_of(rt, alloc, "c 5 0;w 16 0;* 0 1;+ 1 2")?,
    );
    let load = Node::Load {
        dram: 0,
        mem: 1,
        span: vec![in alloc; slice]?,
    };
    let body = Node::Inner {
        counters: vec![in alloc; counter(rt, alloc, 6, "r 0 0", 2)?]?,
        owned: Vec::new(alloc),
        ops: ops_of(rt, alloc, text)?,
        comb: None,
    };
    let root = Node::Outer {
        counters: vec![in alloc; counter(rt, alloc, 5, "w 4 0", 1)?]?,
        style: Style::Sequential,
        owned: [1].to_vec(alloc)?,
        stages: vec![in alloc; stage(load), stage(body)]?,
    };
    let mems = vec![in alloc;
        named(alloc, "n", Kind::ArgIn, &[])?,
        named(alloc, "s", Kind::Sram, &[64])?,
    ]?;
    let ports = Ports {
        args: vec![in alloc; port(alloc, "n", &[])?]?,
        outs: Vec::new(alloc),
        drams: vec![in alloc; port(alloc, "d", &[64])?]?,
    };
    Ok(Core::new(alloc, mems, ports, root))
}

fn row(rt: &impl Abort, alloc: Global, text: &str) -> Result<Option<Vec<Form>>, AllocError> {
    let mut forms = Vec::new(alloc);
    if text == "no index" {
        return Ok(Some(forms));
    }
    match form(rt, alloc, text)? {
        Some(f) => forms.push(f)?,
        None => return Ok(None),
    }
    Ok(Some(forms))
}

// What the operations are, and the forms of their accesses.
const CORES: &str = "\
c 6 0;s 1 0=>- 0 0 1\n\
c 6 1;s 1 0=>- 2 0 1\n\
c 6 0;w 2 0;* 0 1;s 1 2=>none\n\
c 5 0;w 2 0;* 0 1;s 1 2=>- 0 2 0\n\
c 5 0;c 6 0;+ 0 1;s 1 2=>- 0 1 1\n\
r 0 0;c 5 0;+ 0 1;s 1 2=>no index/0 0 1 0\n\
r 0 0;c 6 0;+ 0 1;s 1 2=>no index/none\n\
c 5 0;w 1073741821 0;+ 0 1;s 1 2=>- 1073741821 1 0\n\
c 5 0;w 1073741822 0;+ 0 1;s 1 2=>none\n\
c 5 0;w 2 0;/ 0 1;s 1 2=>none";

#[test]
fn forms_of_worked_cores(rt: HostRuntime) -> Result<(), Fail> {
    for (text, want) in CORES.lines().filter_map(|line| line.split_once("=>")) {
        let core = core(&rt, rt.alloc(), text)??;
        let found = patterns(rt.alloc(), &core)?;
        let mut rows = Vec::new(rt.alloc());
        rows.push(row(&rt, rt.alloc(), "- 0 16")?)?;
        rows.push(row(&rt, rt.alloc(), "no index")?)?;
        for part in want.split('/') {
            rows.push(row(&rt, rt.alloc(), part)?)?;
        }
        assert_eq!(rt; found.forms, rows, "{text}");
        assert_eq!(rt; found.lengths, [Some(16)].to_vec(rt.alloc())?, "{text}");
    }
    Ok(())
}
