use sp_reader::read;
use sp_tree::{Ctl, Expr, ExprKind, Stmt, StmtKind};
use sp_typed::typed_block;
use sp_words::BinOp;
use std::alloc::Global;
use std::test::Fail;

fn block_of(alloc: Global, text: &str) -> Result<Vec<Stmt>, Fail> {
    let bytes = text.as_bytes();
    if bytes.len() > 1_048_576 {
        return Err(Fail::from("a text that is too long"));
    }
    let tree = read(alloc, bytes)?;
    Ok(typed_block(alloc, &tree)?)
}

fn word_of(e: &Expr) -> Option<u64> {
    match &e.kind {
        ExprKind::Lit(word) => Some(*word),
        _ => None,
    }
}

#[test]
fn operands_keep_their_places(rt: HostRuntime) -> Result<(), Fail> {
    let text = "val x = ArgIn[Int]; val y = ArgOut[Int]; Accel { y := x + 3 * -x }";
    let block = block_of(rt.alloc(), text)?;
    assert_eq!(rt; block.len(), 1);
    assert_eq!(rt; block[0].at, 49);
    let StmtKind::SetOut(port, sum) = &block[0].kind else {
        return Err(Fail::from("no write of an output"));
    };
    assert_eq!(rt; port.number(), 1);
    let ExprKind::Two(BinOp::Add, x, product) = &sum.kind else {
        return Err(Fail::from("no sum"));
    };
    assert_eq!(rt; (sum.at, x.at, product.at), (54, 54, 58));
    Ok(())
}

#[test]
fn a_name_that_is_given_again_is_another_value(rt: HostRuntime) -> Result<(), Fail> {
    let text = "Accel { if (true) { val v = 1 } else { val v = 2 }; val v = 3; val w = v }";
    let block = block_of(rt.alloc(), text)?;
    assert_eq!(rt; block.len(), 3);
    let StmtKind::Let(second, e) = &block[2].kind else {
        return Err(Fail::from("no value"));
    };
    let ExprKind::Val(first) = &e.kind else {
        return Err(Fail::from("no name of a value"));
    };
    assert_eq!(rt; (first.number(), second.number()), (2, 3));
    Ok(())
}

#[test]
fn a_literal_is_rounded_down(rt: HostRuntime) -> Result<(), Fail> {
    let text = "Accel { val v = -1.3.to[FixPt[TRUE,_8,_2]] }";
    let block = block_of(rt.alloc(), text)?;
    assert_eq!(rt; block.len(), 1);
    let StmtKind::Let(_, e) = &block[0].kind else {
        return Err(Fail::from("no value"));
    };
    assert_eq!(rt; word_of(e), Some(1018));
    Ok(())
}

#[test]
fn a_bound_that_is_not_written_is_0(rt: HostRuntime) -> Result<(), Fail> {
    let text = "Accel { Foreach(4, 6 by 2 par 3){ (i, j) => val v = j } }";
    let block = block_of(rt.alloc(), text)?;
    assert_eq!(rt; block.len(), 1);
    let StmtKind::Control(control) = &block[0].kind else {
        return Err(Fail::from("no controller"));
    };
    let Ctl::Foreach { counters, .. } = &**control else {
        return Err(Fail::from("no Foreach"));
    };
    assert_eq!(rt; counters.len(), 2);
    let last = &counters[1];
    assert_eq!(rt; (word_of(&last.from), last.from.at), (Some(0), 19));
    assert_eq!(rt; (last.id.number(), last.by, last.par), (1, 2, 3));
    assert_eq!(rt; (counters[0].by, counters[0].par), (1, 1));
    Ok(())
}
