ghost use Rattle.std.specs.Prelude.{◌≡◌, ◌∷◌, [], true, false, IfOk, OnOk, IsTrue, codes, string_bytes};
ghost use Rattle.sp_words.specs.Names.{IsName};
ghost use Rattle.sp_words.specs.Types.{int_type};
ghost use Rattle.sp_netlist.specs.Cells.{in_cell, out_cell, done_cell, const_cell, op_cell, reg_cell, bank_cell, read_tap, dram_cell, plain_cell};
ghost use Rattle.sp_words.specs.declared.types.Ty.TheVariants.{Bit};
ghost use Rattle.sp_netlist.specs.declared.cell.CellOp.TheVariants.{Add};

use sp_netlist::{Builder, Cell, CellOp, NetId, NoMemory};
use sp_words::{Ty, is_name, is_reserved};
use std::alloc::Global;
use std::test::Fail;

fn is_free_name(name: &str) -> bool
    ensures { IsTrue result → IsName name.now }
{
    is_name(name) && !is_reserved(name)
}

/// The name of a port.
fn port_name(alloc: Global, name: &str) -> Result<String, Fail>
    ensures same { IfOk result (λ text. string_bytes text ≡ name.now) }
    ensures named { IfOk result (λ text. IsName (string_bytes text)) }
{
    if is_free_name(name) {
        Ok(String::from_str(alloc, name)?)
    } else {
        Err("a word of the language".into())
    }
}

/// An argument, the word 3 and their sum.
fn add_sum(alloc: Global, builder: &mut Builder) -> Result<NetId, Fail>
    requires no_nets { builder.old.promised ≡ [] }
    requires no_cells { builder.old.cells ≡ [] }
    ensures sum { IfOk result (λ net. net ≡ 2) }
    ensures nets { OnOk result (builder.new.promised ≡ (32, true) ∷ (32, true) ∷ (32, false) ∷ []) }
    ensures cells { OnOk result (builder.new.cells ≡ in_cell (codes "x") 0 int_type ∷ const_cell 1 32 3 ∷ op_cell 2 int_type Add 0 1 ∷ []) }
{
    let int = Ty::int();
    let x = builder.promise(32, true)?;
    let three = builder.promise(32, true)?;
    let sum = builder.promise(32, false)?;
    let name = port_name(alloc, "x")?;
    builder.add(Cell::In(name, x, int))?;
    builder.add(Cell::Const(three, 32, 3))?;
    builder.add(Cell::Op(sum, int, CellOp::Add, x, three))?;
    Ok(sum)
}

/// A register that takes the sum, an output, and a done net that is 1 from the next cycle on.
fn add_result(alloc: Global, builder: &mut Builder, sum: NetId) -> Result<(), Fail>
    requires sum { sum ≡ 2 }
    requires nets { builder.old.promised ≡ (32, true) ∷ (32, true) ∷ (32, false) ∷ [] }
    requires cells { builder.old.cells ≡ in_cell (codes "x") 0 int_type ∷ const_cell 1 32 3 ∷ op_cell 2 int_type Add 0 1 ∷ [] }
    ensures nets { OnOk result (builder.new.promised ≡ (32, true) ∷ (32, true) ∷ (32, false) ∷ (32, true) ∷ (1, true) ∷ (1, true) ∷ []) }
    ensures cells { OnOk result (builder.new.cells ≡ in_cell (codes "x") 0 int_type ∷ const_cell 1 32 3 ∷ op_cell 2 int_type Add 0 1 ∷ reg_cell 3 32 0 2 4 ∷ const_cell 4 1 1 ∷ reg_cell 5 1 0 4 4 ∷ out_cell (codes "y") 3 int_type ∷ done_cell 5 ∷ []) }
{
    let held = builder.promise(32, true)?;
    let one = builder.promise(1, true)?;
    let done = builder.promise(1, true)?;
    builder.add(Cell::Hold(held, 32, 0, sum, one))?;
    builder.add(Cell::Const(one, 1, 1))?;
    builder.add(Cell::Hold(done, 1, 0, one, one))?;
    let name = port_name(alloc, "y")?;
    builder.add(Cell::Out(name, held, Ty::int()))?;
    builder.add(Cell::Done(done))?;
    Ok(())
}

/// `y = x + 3`, done in cycle 1.
#[test]
fn builds_a_sum(rt: HostRuntime) -> Result<(), Fail> {
    let alloc = rt.alloc();
    let mut builder = Builder::new(alloc);
    let sum = add_sum(alloc, &mut builder)?;
    add_result(alloc, &mut builder, sum)?;
    let netlist = builder.finish(alloc)?;
    let cells = netlist.cells();
    let ports = netlist.ports();
    let int = "Fix(FixTy { signed: true, whole: 32, frac: 0 })";
    assert_eq!(rt;
        format!(in alloc; "{cells:?}")?,
        format!(in alloc;
            "[In(\"x\", NetId(0), {int}), Const(NetId(1), 32, 3), Op(NetId(2), {int}, Add, NetId(0), NetId(1)), Hold(NetId(3), 32, 0, NetId(2), NetId(4)), Const(NetId(4), 1, 1), Hold(NetId(5), 1, 0, NetId(4), NetId(4)), Out(\"y\", NetId(3), {int}), Done(NetId(5))]"
        )?
    );
    assert_eq!(rt;
        format!(in alloc; "{ports:?}")?,
        format!(in alloc;
            "Ports {{ args: [PortDecl {{ name: \"x\", ty: {int}, dims: [] }}], outs: [PortDecl {{ name: \"y\", ty: {int}, dims: [] }}], drams: [] }}"
        )?
    );
    Ok(())
}

/// A bank that two taps read in the same cycle, and a done net that stays 0.
fn add_bank(builder: &mut Builder) -> Result<(), NoMemory>
    requires no_nets { builder.old.promised ≡ [] }
    requires no_cells { builder.old.cells ≡ [] }
    ensures nets { OnOk result (builder.new.promised ≡ (1, true) ∷ (32, true) ∷ (1, true) ∷ (8, true) ∷ (8, true) ∷ []) }
    ensures cells { OnOk result (builder.new.cells ≡ const_cell 0 1 1 ∷ const_cell 1 32 0 ∷ reg_cell 2 1 0 0 0 ∷ bank_cell 0 8 4 ∷ read_tap 3 0 2 1 ∷ read_tap 4 0 2 1 ∷ []) }
{
    let one = builder.promise(1, true)?;
    let zero = builder.promise(32, true)?;
    let enable = builder.promise(1, true)?;
    let left = builder.promise(8, true)?;
    let right = builder.promise(8, true)?;
    builder.add(Cell::Const(one, 1, 1))?;
    builder.add(Cell::Const(zero, 32, 0))?;
    builder.add(Cell::Hold(enable, 1, 0, one, one))?;
    builder.add(Cell::Bank(0, 8, 4))?;
    builder.add(Cell::ReadTap(left, 0, enable, zero))?;
    builder.add(Cell::ReadTap(right, 0, enable, zero))
}

/// Outputs and DRAMs among other cells.
fn add_ports(alloc: Global, builder: &mut Builder) -> Result<(), Fail>
    requires no_nets { builder.old.promised ≡ [] }
    requires no_cells { builder.old.cells ≡ [] }
    ensures nets { OnOk result (builder.new.promised ≡ (1, true) ∷ []) }
    ensures cells { OnOk result (builder.new.cells ≡ dram_cell 0 (codes "m") Bit (4 ∷ []) ∷ out_cell (codes "q") 0 Bit ∷ in_cell (codes "a") 0 Bit ∷ dram_cell 1 (codes "k") Bit (2 ∷ 3 ∷ []) ∷ out_cell (codes "p") 0 Bit ∷ done_cell 0 ∷ []) }
{
    let a = builder.promise(1, true)?;
    let m = port_name(alloc, "m")?;
    let four = Vec::from_slice(alloc, &[4])?;
    builder.add(Cell::Dram(0, m, Ty::Bit, four))?;
    let q = port_name(alloc, "q")?;
    builder.add(Cell::Out(q, a, Ty::Bit))?;
    let first = port_name(alloc, "a")?;
    builder.add(Cell::In(first, a, Ty::Bit))?;
    let k = port_name(alloc, "k")?;
    let two_by_three = Vec::from_slice(alloc, &[2, 3])?;
    builder.add(Cell::Dram(1, k, Ty::Bit, two_by_three))?;
    let p = port_name(alloc, "p")?;
    builder.add(Cell::Out(p, a, Ty::Bit))?;
    builder.add(Cell::Done(a))?;
    Ok(())
}

#[test]
fn builds_a_bank_with_two_taps(rt: HostRuntime) -> Result<(), Fail> {
    let alloc = rt.alloc();
    let mut builder = Builder::new(alloc);
    add_bank(&mut builder)?;
    let done = builder.promise(1, true)?;
    builder.add(Cell::Const(done, 1, 0))?;
    builder.add(Cell::Done(done))?;
    let netlist = builder.finish(alloc)?;
    let cells = netlist.cells();
    assert_eq!(rt;
        format!(in alloc; "{cells:?}")?.as_str(),
        "[Const(NetId(0), 1, 1), Const(NetId(1), 32, 0), Hold(NetId(2), 1, 0, NetId(0), NetId(0)), Bank(0, 8, 4), ReadTap(NetId(3), 0, NetId(2), NetId(1)), ReadTap(NetId(4), 0, NetId(2), NetId(1)), Const(NetId(5), 1, 0), Done(NetId(5))]"
    );
    Ok(())
}

#[test]
fn lists_ports_in_the_order_of_their_cells(rt: HostRuntime) -> Result<(), Fail> {
    let alloc = rt.alloc();
    let mut builder = Builder::new(alloc);
    add_ports(alloc, &mut builder)?;
    let netlist = builder.finish(alloc)?;
    let ports = netlist.ports();
    assert_eq!(rt;
        format!(in alloc; "{ports:?}")?.as_str(),
        "Ports { args: [PortDecl { name: \"a\", ty: Bit, dims: [] }], outs: [PortDecl { name: \"q\", ty: Bit, dims: [] }, PortDecl { name: \"p\", ty: Bit, dims: [] }], drams: [PortDecl { name: \"m\", ty: Bit, dims: [4] }, PortDecl { name: \"k\", ty: Bit, dims: [2, 3] }] }"
    );
    Ok(())
}

fn copy_of(cell: &Cell) -> Result<Cell, NoMemory>
    ensures { IfOk result (λ copy. plain_cell copy ≡ plain_cell cell.now) }
{
    cell.clone()
}

#[test]
fn cells_are_copied_and_compared(rt: HostRuntime) -> Result<(), Fail> {
    let alloc = rt.alloc();
    let dims = [4, 3];
    let dram = Cell::Dram(
        0,
        String::from_str(alloc, "m")?,
        Ty::int(),
        Vec::from_slice(alloc, &dims)?,
    );
    let copy = copy_of(&dram)?;
    assert_eq!(rt; copy, dram);
    let smaller = Cell::Dram(
        0,
        String::from_str(alloc, "m")?,
        Ty::int(),
        Vec::from_slice(alloc, &dims[..1])?,
    );
    assert_ne!(rt; smaller, dram);
    assert_ne!(rt; Cell::Done(NetId::new(1)), Cell::Done(NetId::new(2)));
    Ok(())
}
