use sp_gates::{constant, one};
use sp_lane_nets::{lane_word, some_live};
use sp_netlist::Builder;
use std::test::Fail;

// The value is net 0, what is added net 1.
#[test]
fn the_word_of_a_lane_is_a_sum(rt: HostRuntime) -> Result<(), Fail> {
    let mut builder = Builder::new(rt.alloc());
    let value = constant(&mut builder, 32, 5)?;
    let word = lane_word(&mut builder, value, 3)?;
    assert_eq!(rt; word.number(), 2);
    Ok(())
}

// Two masks are joined by one net.
#[test]
fn lanes_are_joined(rt: HostRuntime) -> Result<(), Fail> {
    let mut builder = Builder::new(rt.alloc());
    let mask = one(&mut builder)?;
    let masks = [mask, mask];
    let net = some_live(&mut builder, &masks, 0, 1)?;
    assert_eq!(rt; net.number(), 1);
    Ok(())
}
