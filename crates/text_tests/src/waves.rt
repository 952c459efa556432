use sp_listing::read;
use sp_sim::Sim;
use sp_waves::waves;
use sp_words::Input;
use std::test::Fail;

/// A register takes an argument plus 3, and then the netlist is done.
const SUM: &str = "netlist 1
in x 0 s32.0
const 1 32 3
op 2 s32.0 add 0 1
reg 3 32 0 2 4
const 4 1 1
reg 5 1 0 4 4
out y 3 s32.0
done 5
";

/// Its dump for the argument 4, written by hand.
const DUMP: &str = "$version spatialc $end
$timescale 1ns $end
$comment in_x s32.0 $end
$comment out_y s32.0 $end
$scope module spatial $end
$var wire 1 ! clk $end
$var wire 32 \" in_x $end
$var wire 32 # out_y $end
$var wire 1 $ done $end
$var wire 32 % n0 $end
$var wire 32 & n1 $end
$var wire 32 ' n2 $end
$var wire 32 ( n3 $end
$var wire 1 ) n4 $end
$var wire 1 * n5 $end
$upscope $end
$enddefinitions $end
#0
$dumpvars
1!
b100 \"
b0 #
0$
b100 %
b11 &
b111 '
b0 (
1)
0*
$end
#5
0!
#10
1!
b111 #
1$
b111 (
1*
#15
0!
#20
";

#[test]
fn a_run_is_dumped_as_worked_out(rt: HostRuntime) -> Result<(), Fail> {
    let alloc = rt.alloc();
    if SUM.len() > 1000 {
        Err("a long listing")?
    }
    let netlist = read(alloc, SUM.as_bytes())?;
    let mut args = Vec::new(alloc);
    args.push(4u64)?;
    let input = Input {
        args,
        drams: Vec::new(alloc),
    };
    let mut sim = Sim::load(alloc, &netlist, &input, &[])?;
    assert_eq!(rt; waves(alloc, &netlist, &mut sim, 10)?.as_str(), DUMP);
    Ok(())
}
