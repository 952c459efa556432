use crate::cores::{body, memory, no_ports, op, stage};
use sp_affine::Form;
use sp_core::{AccessForms, Core, CoreError, Node, OpKind};
use sp_schemes::schemes;
use sp_words::{Kind, Style};
use std::alloc::{AllocError, Global};
use std::test::Fail;

/// A memory of a kind, number 0, and a body that reads it so often, each time at as many indices as it has dimensions.
fn read_by_one_body(
    alloc: Global,
    kind: Kind,
    dims: &[u32],
    reads: usize,
) -> Result<Result<Core, CoreError>, AllocError> {
    let mut indices = Vec::new(alloc);
    for _ in dims {
        indices.push(0u32)?;
    }
    let mut ops = Vec::new(alloc);
    ops.push(op(alloc, OpKind::Word(0), &[], None)?)?;
    for _ in 0..reads {
        ops.push(op(alloc, OpKind::Read, &indices, Some(0))?)?;
    }
    let root = Node::Outer {
        counters: Vec::new(alloc),
        style: Style::Pipe,
        owned: vec![in alloc; 0]?,
        stages: vec![in alloc; stage(body(alloc, ops))]?,
    };
    let mem = memory(alloc, "t", kind, dims)?;
    Ok(Core::new(alloc, vec![in alloc; mem]?, no_ports(alloc), root))
}

/// A counter's multiple, plus a number.
fn form(alloc: Global, coef: i64, constant: i64) -> Result<Form, AllocError> {
    Ok(Form {
        coefs: vec![in alloc; coef]?,
        constant,
        symbol: None,
    })
}

/// For each read its forms, one for each dimension: a multiple of a counter, plus the constants.
fn forms_of(alloc: Global, coef: i64, reads: &[&[i64]]) -> Result<AccessForms, AllocError> {
    let mut forms = Vec::new(alloc);
    for constants in reads {
        let mut row = Vec::new(alloc);
        for constant in *constants {
            row.push(form(alloc, coef, *constant)?)?;
        }
        forms.push(Some(row))?;
    }
    Ok(AccessForms {
        forms,
        lengths: Vec::new(alloc),
    })
}

#[test]
fn neighbours_are_in_banks_of_their_own(rt: HostRuntime) -> Result<(), Fail> {
    let alloc = rt.alloc();
    let core = read_by_one_body(alloc, Kind::Sram, &[16], 4)??;
    let forms = forms_of(alloc, 4, &[&[0], &[1], &[2], &[3]])?;
    let chosen = schemes(alloc, &core, &forms)?;
    let scheme = chosen
        .first()
        .expect(&rt, "a memory")
        .as_ref()
        .expect(&rt, "a scheme");
    assert_eq!(rt; scheme.banks, 4);
    assert_eq!(rt; scheme.block, 1);
    assert_eq!(rt; scheme.alpha.as_slice(), [1].as_slice());
    assert_eq!(rt; scheme.hinge, 0);
    Ok(())
}

#[test]
fn a_row_of_a_line_buffer_is_banked_by_its_columns(rt: HostRuntime) -> Result<(), Fail> {
    let alloc = rt.alloc();
    let core = read_by_one_body(alloc, Kind::LineBuf, &[2, 16], 3)??;
    let rows_apart = forms_of(alloc, 1, &[&[0, 0], &[1, 0], &[1, 1]])?;
    let chosen = schemes(alloc, &core, &rows_apart)?;
    let scheme = chosen
        .first()
        .expect(&rt, "a memory")
        .as_ref()
        .expect(&rt, "a scheme");
    assert_eq!(rt; scheme.banks, 2);
    assert_eq!(rt; scheme.alpha.as_slice(), [1].as_slice());
    Ok(())
}

#[test]
fn several_accesses_that_are_not_one_group_are_serial(rt: HostRuntime) -> Result<(), Fail> {
    let alloc = rt.alloc();
    let core = read_by_one_body(alloc, Kind::Sram, &[16], 2)??;
    let unknown = AccessForms {
        forms: vec![in alloc; None, None]?,
        lengths: Vec::new(alloc),
    };
    assert!(rt; matches!(schemes(alloc, &core, &unknown)?.first(), Some(None)));
    let alone = read_by_one_body(alloc, Kind::Sram, &[16], 1)??;
    let chosen = schemes(alloc, &alone, &unknown)?;
    let scheme = chosen
        .first()
        .expect(&rt, "a memory")
        .as_ref()
        .expect(&rt, "a scheme");
    assert_eq!(rt; scheme.banks, 1);
    assert_eq!(rt; scheme.alpha.as_slice(), [0].as_slice());
    let register = read_by_one_body(alloc, Kind::Reg, &[], 2)??;
    assert!(rt; matches!(schemes(alloc, &register, &unknown)?.first(), Some(None)));
    Ok(())
}
