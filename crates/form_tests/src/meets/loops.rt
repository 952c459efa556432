use sp_core::{Core, CoreCounter, CoreError, CoreMem, Meet, Node, Op, OpKind};
use sp_meets::meets;
use sp_patterns::patterns;
use sp_words::{BinOp, Kind, Ports, Ty};
use std::alloc::{AllocError, Global};
use std::process::Abort;
use std::test::Fail;

fn op(alloc: Global, kind: OpKind, args: &[u32], mem: Option<u32>) -> Result<Op, AllocError> {
    Ok(Op {
        kind,
        ty: Ty::int(),
        args: args.to_vec(alloc)?,
        mem,
        mask: None,
    })
}

fn word(alloc: Global, number: u64) -> Result<Op, AllocError> {
    op(alloc, OpKind::Word(number), &[], None)
}

// The operations of `s(d * i + e) = s(a * i + c)`, by a, c, d and e.
fn body(alloc: Global, row: [u64; 4]) -> Result<Vec<Op>, AllocError> {
    let ops = vec![in alloc;
        op(alloc, OpKind::Count(0, 0), &[], None)?,
        word(alloc, row[0])?,
        op(alloc, OpKind::Two(BinOp::Mul), &[0, 1], None)?,
        word(alloc, row[1])?,
        op(alloc, OpKind::Two(BinOp::Add), &[2, 3], None)?,
        op(alloc, OpKind::Read, &[4], Some(0))?,
        word(alloc, row[2])?,
        op(alloc, OpKind::Two(BinOp::Mul), &[0, 6], None)?,
        word(alloc, row[3])?,
        op(alloc, OpKind::Two(BinOp::Add), &[7, 8], None)?,
        op(alloc, OpKind::Write, &[9, 5], Some(0))?,
    ]?;
    Ok(ops)
}

// A loop from 0 to 11. Its read is access 7, its write 12.
fn core(alloc: Global, row: [u64; 4]) -> Result<Result<Core, CoreError>, AllocError> {
    let counter = CoreCounter {
        id: 0,
        from: vec![in alloc; word(alloc, 0)?]?,
        until: vec![in alloc; word(alloc, 12)?]?,
        by: 1,
        par: 1,
    };
    let root = Node::Inner {
        counters: vec![in alloc; counter]?,
        owned: [0].to_vec(alloc)?,
        ops: body(alloc, row)?,
        comb: None,
    };
    let mem = CoreMem {
        name: String::from_str(alloc, "s")?,
        kind: Kind::Sram,
        ty: Ty::int(),
        dims: [64].to_vec(alloc)?,
        start: None,
        written: true,
    };
    let ports = Ports {
        args: Vec::new(alloc),
        outs: Vec::new(alloc),
        drams: Vec::new(alloc),
    };
    Ok(Core::new(alloc, vec![in alloc; mem]?, ports, root))
}

fn numbers(rt: &impl Abort, alloc: Global, text: &str) -> Result<Vec<u64>, AllocError> {
    let mut made = Vec::new(alloc);
    for field in text.split(' ') {
        made.push(field.parse().ok().expect(rt, "a number"))?;
    }
    Ok(made)
}

fn at(rt: &impl Abort, numbers: &[u64], place: usize) -> u64 {
    *numbers.get(place).expect(rt, "a number")
}

fn small(rt: &impl Abort, number: u64) -> u32 {
    u32::try_from(number).ok().expect(rt, "a small number")
}

fn entries(rt: &impl Abort, alloc: Global, text: &str) -> Result<Vec<Meet>, AllocError> {
    let mut made = Vec::new(alloc);
    for part in text.split(';') {
        let entry = numbers(rt, alloc, part)?;
        made.push(Meet {
            first: small(rt, at(rt, &entry, 0)),
            second: small(rt, at(rt, &entry, 1)),
            least: at(rt, &entry, 2),
        })?;
    }
    Ok(made)
}

// a, c, d and e, and the least number of groups at which the two touch one element, as the iterations run one after the other.
const ROWS: &str = "\
1 0 1 1=>12 7 1\n\
1 1 1 0=>7 12 1\n\
1 0 1 0=>7 12 0\n\
0 3 0 3=>7 12 0;12 7 1;12 12 1\n\
2 0 2 6=>12 7 3\n\
2 9 2 1=>7 12 4\n\
1 0 2 0=>7 12 0;12 7 1\n\
2 1 3 0=>7 12 0;12 7 1";

#[test]
fn meets_of_worked_loops(rt: HostRuntime) -> Result<(), Fail> {
    for (text, want) in ROWS.lines().filter_map(|line| line.split_once("=>")) {
        let row = numbers(&rt, rt.alloc(), text)?;
        let row = [
            at(&rt, &row, 0),
            at(&rt, &row, 1),
            at(&rt, &row, 2),
            at(&rt, &row, 3),
        ];
        let core = core(rt.alloc(), row)??;
        let forms = patterns(rt.alloc(), &core)?;
        let found = meets(rt.alloc(), &core, &forms)?;
        assert_eq!(rt; found.pairs, entries(&rt, rt.alloc(), want)?, "{text}");
    }
    Ok(())
}
