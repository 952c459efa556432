ghost use Rattle.std.specs.Prelude.{◌≡◌, ◌^◌, ◌<◌};
ghost use Rattle.sp_packed.specs.Elements.{IsWidth};

use sp_packed::{NoMemory, Packed};
use std::alloc::Global;
use std::process::Abort;
use std::test::Fail;

/// The numbers, read one by one.
fn read_all(alloc: Global, words: &Packed) -> Result<Vec<u64>, NoMemory> {
    let mut all = Vec::with_capacity(alloc, words.len())?;
    for i in 0..words.len() {
        all.push(words.get(i))?;
    }
    Ok(all)
}

#[test]
fn a_new_row_is_zeros_and_set_changes_one_number(rt: HostRuntime) -> Result<(), Fail> {
    let mut words = Packed::new(rt.alloc(), 2, 3)?;
    assert_eq!(rt;
        read_all(rt.alloc(), &words)?.as_slice(),
        [0, 0, 0].as_slice()
    );
    words.set(1, 65535);
    assert_eq!(rt; words.len(), 3);
    assert_eq!(rt;
        read_all(rt.alloc(), &words)?.as_slice(),
        [0, 65535, 0].as_slice()
    );
    Ok(())
}

fn check_extremes(rt: &impl Abort, alloc: Global, bytes_each: u8, max: u64) -> Result<(), NoMemory>
    requires width { IsWidth bytes_each }
    requires fits { max < 256 ^ bytes_each }
{
    let mut words = Packed::new(alloc, bytes_each, 4)?;
    words.set(0, max);
    words.set(3, max);
    assert_eq!(rt;
        read_all(alloc, &words)?.as_slice(),
        [max, 0, 0, max].as_slice()
    );
    words.fill(max);
    words.set(2, 0);
    assert_eq!(rt;
        read_all(alloc, &words)?.as_slice(),
        [max, max, 0, max].as_slice()
    );
    words.fill(0);
    assert_eq!(rt;
        read_all(alloc, &words)?.as_slice(),
        [0, 0, 0, 0].as_slice()
    );
    Ok(())
}

#[test]
fn each_width_holds_its_least_and_its_greatest_number(rt: HostRuntime) -> Result<(), Fail> {
    check_extremes(&rt, rt.alloc(), 1, 255)?;
    check_extremes(&rt, rt.alloc(), 2, 65_535)?;
    check_extremes(&rt, rt.alloc(), 4, 4_294_967_295)?;
    check_extremes(&rt, rt.alloc(), 8, 18_446_744_073_709_551_615)?;
    Ok(())
}

fn check_no_numbers(rt: &impl Abort, alloc: Global, bytes_each: u8) -> Result<(), NoMemory>
    requires { IsWidth bytes_each }
{
    let mut words = Packed::new(alloc, bytes_each, 0)?;
    words.fill(1);
    assert_eq!(rt; words.len(), 0);
    assert_eq!(rt; Packed::new(alloc, bytes_each, usize::MAX).is_err(), true);
    Ok(())
}

#[test]
fn a_row_may_be_empty_and_may_not_be_too_long(rt: HostRuntime) -> Result<(), Fail> {
    check_no_numbers(&rt, rt.alloc(), 1)?;
    check_no_numbers(&rt, rt.alloc(), 2)?;
    check_no_numbers(&rt, rt.alloc(), 4)?;
    check_no_numbers(&rt, rt.alloc(), 8)?;
    // 2 ^ 63 and 2 ^ 64 bytes
    assert_eq!(rt; Packed::new(rt.alloc(), 8, 1 << 60).is_err(), true);
    assert_eq!(rt; Packed::new(rt.alloc(), 8, 1 << 61).is_err(), true);
    Ok(())
}

fn check_writes(rt: &impl Abort, alloc: Global, bytes_each: u8) -> Result<(), NoMemory>
    requires { IsWidth bytes_each }
{
    let mut words = Packed::new(alloc, bytes_each, 5)?;
    let table = [
        (0, 1, [1, 0, 0, 0, 0]),
        (4, 255, [1, 0, 0, 0, 255]),
        (2, 128, [1, 0, 128, 0, 255]),
        (4, 7, [1, 0, 128, 0, 7]),
        (0, 0, [0, 0, 128, 0, 7]),
        (3, 200, [0, 0, 128, 200, 7]),
        (2, 127, [0, 0, 127, 200, 7]),
        (1, 254, [0, 254, 127, 200, 7]),
    ];
    for (i, v, expected) in table {
        assert!(rt; i < 5 && v < 256);
        words.set(i, v);
        assert_eq!(rt;
            read_all(alloc, &words)?.as_slice(),
            expected.as_slice(),
            "at {i}"
        );
    }
    Ok(())
}

#[test]
fn writes_and_reads_at_each_width_are_those_of_a_plain_list(rt: HostRuntime) -> Result<(), Fail> {
    check_writes(&rt, rt.alloc(), 1)?;
    check_writes(&rt, rt.alloc(), 2)?;
    check_writes(&rt, rt.alloc(), 4)?;
    check_writes(&rt, rt.alloc(), 8)?;
    Ok(())
}
