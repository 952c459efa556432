//! From a core and its plan to a netlist.
ghost use Rattle.std.specs.Prelude.{◌≡◌, [], length, IfOk, OnOk};
ghost use Rattle.sp_netlist.specs.Rules.{IsNetlist};
ghost use Rattle.sp_core.specs.CoreParts.{plain_core};
ghost use Rattle.sp_plan.specs.Plain.{plain_plan};
ghost use Rattle.sp_lower.specs.Carries.{CanLower, CarriesCore};

use crate::sizes::drams_keep_sizes;
use crate::trees_emit::emit_stored_core;
use sp_channel_runs::delays_are_small;
use sp_core::Core;
use sp_dram_words::{drams_run, units_join};
use sp_frames::{
    add_drams, add_inputs, close_frame, frame_laws, frames_end, port_laws, taps_share_none,
};
use sp_gates::{constant, hold, one};
use sp_load_units::{add_units, drams_stand, units_are_open, units_stay};
use sp_memory_nets::{add_arrays, arrays_are_open, arrays_share_none, arrays_stay};
use sp_netlist::{Builder, Netlist, NoMemory, one_run};
use sp_plan::Plan;
use sp_port_nets::{
    argument_nets, arguments_are_ports, arguments_have_words, output_nets, outputs_are_ports,
};
use sp_stored_cores::{first_words_given, stored_cores_go};
use sp_taps::tap_laws;
use sp_transfer_runs::delays_are_there;
use std::alloc::Global;

/// The netlist of a core all of whose memories are registers, arguments, outputs, SRAMs and FIFOs, by a valid plan. It is started in
/// cycle 0, and done in the cycle after the last one of the timeline; its outputs and DRAMs then have the words that the core's run
/// leaves.
pub fn lower(alloc: Global, core: &Core, plan: &Plan) -> Result<Netlist, NoMemory>
    requires { CanLower (plain_core core.now) (plain_plan plan.now) }
    ensures netlist { IfOk result (λ netlist. IsNetlist netlist) }
    ensures carries { IfOk result (λ netlist. CarriesCore (plain_core core.now) (plain_plan plan.now) netlist) }
{
    arguments_are_ports();
    arguments_have_words();
    arrays_are_open();
    arrays_share_none();
    arrays_stay();
    delays_are_small();
    delays_are_there();
    drams_keep_sizes();
    drams_run();
    drams_stand();
    first_words_given();
    frame_laws();
    frames_end();
    one_run();
    outputs_are_ports();
    port_laws();
    stored_cores_go();
    tap_laws();
    taps_share_none();
    units_are_open();
    units_join();
    units_stay();
    let mut builder = Builder::new(alloc);
    let ports = add_inputs(alloc, &mut builder, &core.ports().args)?;
    add_drams(alloc, &mut builder, &core.ports().drams)?;
    let transfers = add_units(alloc, &mut builder, core)?;
    let arguments = argument_nets(alloc, core, &ports)?;
    let arrays = add_arrays(alloc, &mut builder, core, plan, 0)?;
    let always = one(&mut builder)?;
    let zero = constant(&mut builder, 1, 0)?;
    let start = hold(&mut builder, 1, 1, zero, always)?;
    let tree = emit_stored_core(
        alloc,
        &mut builder,
        core,
        plan,
        &arguments,
        &arrays,
        &transfers,
        start,
    )?;
    let done = hold(&mut builder, 1, 0, tree.child.done, always)?;
    let outs = output_nets(alloc, core, &tree.words)?;
    let netlist = close_frame(alloc, builder, &core.ports().outs, &outs, done)?;
    Ok(netlist)
}
