use sp_netlist::{Builder, Cell};
use sp_verilog::verilog;
use sp_words::{FixTy, Ty};
use std::test::Fail;

/// The text of a netlist that is done in its first cycle and casts a constant, worked out by hand.
const CAST: &str = "module spatial(
  input wire clk,
  input wire rst,
  output wire [0:0] done
);
  wire [7:0] n0;
  wire [23:0] n1;
  wire [0:0] n2;
  assign n0 = 8'd5;
  wire [127:0] n1_e = {{120{n0[7]}}, n0};
  wire [127:0] n1_t = n1_e << 7'd8;
  assign n1 = n1_t[23:0];
  assign n2 = 1'd1;
  assign done = n2;
endmodule
";

#[test]
fn a_cast_has_three_lines(rt: HostRuntime) -> Result<(), Fail> {
    let alloc = rt.alloc();
    let byte = Ty::Fix(FixTy::new(true, 8, 0).ok_or("no type")?);
    let wide = Ty::Fix(FixTy::new(true, 16, 8).ok_or("no type")?);
    let mut builder = Builder::new(alloc);
    let x = builder.promise(8, true)?;
    let y = builder.promise(24, false)?;
    let one = builder.promise(1, true)?;
    builder.add(Cell::Const(x, 8, 5))?;
    builder.add(Cell::Cast(y, byte, wide, x))?;
    builder.add(Cell::Const(one, 1, 1))?;
    builder.add(Cell::Done(one))?;
    let text = verilog(alloc, &builder.finish(alloc)?)?;
    assert_eq!(rt; text.as_str(), CAST);
    Ok(())
}
