use sp_counts::{NoMemory, Over, Which, first_over};
use sp_tree::{Counter, Ctl, CtrId, Expr, ExprKind, MemDecl, Stmt, StmtKind};
use sp_words::{Kind, MemId, Style, Ty, WritePort};
use std::alloc::Global;
use std::test::Fail;

fn literal() -> Expr {
    Expr {
        at: 0,
        ty: Ty::Bit,
        kind: ExprKind::Lit(0),
    }
}

fn memory(alloc: Global, kind: Kind, dims: &[u32]) -> Result<MemDecl, NoMemory> {
    Ok(MemDecl {
        name: String::new(alloc),
        kind,
        ty: Ty::Bit,
        dims: dims.to_vec(alloc)?,
        start: None,
        at: 0,
    })
}

/// So many words put into the memory of number 0: two nodes and one operation each.
fn puts(alloc: Global, count: usize) -> Result<Vec<Stmt>, NoMemory> {
    let mut body = Vec::new(alloc);
    for _ in 0..count {
        body.push(Stmt {
            at: 0,
            kind: StmtKind::Enq(WritePort::new(MemId::new(0)), literal()),
        })?;
    }
    Ok(body)
}

fn in_loop(alloc: Global, par: u32, body: Vec<Stmt>) -> Result<Stmt, NoMemory> {
    let counter = Counter {
        id: CtrId::new(0),
        from: literal(),
        until: literal(),
        by: 1,
        par,
    };
    let ctl = Ctl::Foreach {
        style: Style::Pipe,
        counters: vec![in alloc; counter]?,
        body,
    };
    Ok(Stmt {
        at: 0,
        kind: StmtKind::Control(Box::new(alloc, ctl)?),
    })
}

fn declared(number: u32) -> Stmt {
    Stmt {
        at: 0,
        kind: StmtKind::Declare(number),
    }
}

fn past(which: Which, count: u64) -> Option<Over> {
    Some(Over { which, count })
}

#[test]
fn counts_at_their_limits_are_within(rt: HostRuntime) -> Result<(), Fail> {
    let alloc = rt.alloc();
    assert_eq!(rt; first_over(alloc, &[], &[])?, None);
    assert_eq!(rt; first_over(alloc, &[], &puts(alloc, 2048)?)?, None);
    let sram = vec![in alloc; memory(alloc, Kind::Sram, &[2048, 2048])?]?;
    assert_eq!(rt; first_over(alloc, &sram, &[declared(0)])?, None);
    Ok(())
}

#[test]
fn the_first_count_past_its_limit_is_found(rt: HostRuntime) -> Result<(), Fail> {
    let alloc = rt.alloc();
    assert_eq!(rt;
        first_over(alloc, &[], &puts(alloc, 10001)?)?,
        past(Which::Nodes, 20002)
    );
    assert_eq!(rt;
        first_over(alloc, &[], &puts(alloc, 2049)?)?,
        past(Which::Body, 2049)
    );
    let wide = vec![in alloc; in_loop(alloc, 17, puts(alloc, 2049)?)?]?;
    assert_eq!(rt; first_over(alloc, &[], &wide)?, past(Which::Lanes, 17));
    let mut loops = Vec::new(alloc);
    for _ in 0..5 {
        loops.push(in_loop(alloc, 8, puts(alloc, 205)?)?)?;
    }
    assert_eq!(rt;
        first_over(alloc, &[], &loops)?,
        past(Which::Operations, 8200)
    );
    Ok(())
}

#[test]
fn words_are_counted(rt: HostRuntime) -> Result<(), Fail> {
    let alloc = rt.alloc();
    let sram = vec![in alloc; memory(alloc, Kind::Sram, &[4194305])?]?;
    assert_eq!(rt;
        first_over(alloc, &sram, &[declared(0)])?,
        past(Which::Words, 4194305)
    );
    let large = vec![in alloc; memory(alloc, Kind::Sram, &[2048, 2048])?]?;
    let looped = in_loop(alloc, 5, vec![in alloc; declared(0)]?)?;
    assert_eq!(rt;
        first_over(alloc, &large, &[looped])?,
        past(Which::Copies, 20971520)
    );
    let dram = vec![in alloc; memory(alloc, Kind::Dram, &[2147483647, 2147483647, 5])?]?;
    assert_eq!(rt; first_over(alloc, &dram, &[])?, past(Which::Dram, u64::MAX));
    Ok(())
}

#[test]
fn queues_of_a_stream_block_count_with_their_room(rt: HostRuntime) -> Result<(), Fail> {
    let alloc = rt.alloc();
    let mut queues = Vec::new(alloc);
    let mut body = Vec::new(alloc);
    for number in 0..65 {
        queues.push(memory(alloc, Kind::Fifo, &[4])?)?;
        body.push(declared(number))?;
    }
    let ctl = Ctl::Block {
        style: Style::Stream,
        body,
    };
    let block = Stmt {
        at: 0,
        kind: StmtKind::Control(Box::new(alloc, ctl)?),
    };
    assert_eq!(rt;
        first_over(alloc, &queues, &[block])?,
        past(Which::Words, 4259840)
    );
    Ok(())
}
