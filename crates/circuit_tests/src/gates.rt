use sp_gates::{
    both, cast, choose, constant, delay, either, equals, hold, invert, negate, one, operate,
    reserve, shift,
};
use sp_netlist::{Builder, CellOp, CellShift};
use sp_words::Ty;
use std::test::Fail;

#[test]
fn each_gate_on_words_is_the_next_net(rt: HostRuntime) -> Result<(), Fail> {
    let alloc = rt.alloc();
    let mut sums = Builder::new(alloc);
    let a = constant(&mut sums, 1, 1)?;
    assert_eq!(rt; operate(&mut sums, Ty::Bit, CellOp::Xor, a, a)?.number(), 1);
    let mut turned = Builder::new(alloc);
    let a = constant(&mut turned, 1, 1)?;
    assert_eq!(rt; invert(&mut turned, Ty::Bit, a)?.number(), 1);
    let mut shifted = Builder::new(alloc);
    let a = constant(&mut shifted, 1, 1)?;
    assert_eq!(rt;
        shift(&mut shifted, Ty::Bit, CellShift::Shl, a, 3)?.number(),
        1
    );
    let mut widened = Builder::new(alloc);
    let a = constant(&mut widened, 1, 1)?;
    assert_eq!(rt; cast(&mut widened, Ty::Bit, Ty::int(), a)?.number(), 1);
    let mut chosen = Builder::new(alloc);
    let a = constant(&mut chosen, 1, 1)?;
    assert_eq!(rt; choose(&mut chosen, 1, a, a, a)?.number(), 1);
    Ok(())
}

#[test]
fn a_delay_is_a_register_for_each_cycle(rt: HostRuntime) -> Result<(), Fail> {
    let alloc = rt.alloc();
    let mut held = Builder::new(alloc);
    let a = constant(&mut held, 1, 1)?;
    assert_eq!(rt; hold(&mut held, 1, 0, a, a)?.number(), 1);
    assert_eq!(rt; reserve(&mut held, 8)?.number(), 2);
    let mut late = Builder::new(alloc);
    let a = one(&mut late)?;
    assert_eq!(rt; delay(&mut late, 1, a, 3, a)?.number(), 3);
    Ok(())
}

#[test]
fn each_gate_on_bits_is_the_next_net(rt: HostRuntime) -> Result<(), Fail> {
    let alloc = rt.alloc();
    let mut products = Builder::new(alloc);
    let a = one(&mut products)?;
    let bit = equals(&mut products, Ty::Bit, a, 1)?;
    assert_eq!(rt; both(&mut products, bit, bit)?.number(), 3);
    let mut sums = Builder::new(alloc);
    let a = one(&mut sums)?;
    let bit = equals(&mut sums, Ty::Bit, a, 1)?;
    assert_eq!(rt; either(&mut sums, bit, bit)?.number(), 3);
    let mut turned = Builder::new(alloc);
    let a = one(&mut turned)?;
    let bit = equals(&mut turned, Ty::Bit, a, 1)?;
    assert_eq!(rt; negate(&mut turned, bit)?.number(), 3);
    Ok(())
}
