//! `simulate L S` and `waves L S`: a listing is run on the input, the delays and the cycles of a setup.
ghost use Rattle.std.specs.Prelude.{◌≡◌, ◌≤◌, ℕ, List, [], ◌∷◌, length, All, IfOk, IfErr, OnOk, string_bytes};
ghost use Rattle.sp_edges.specs.Counts.{Rose};
ghost use Rattle.sp_edges.specs.Calls.{given};
ghost use Rattle.sp_netlist.specs.Ports.{ports_of};
ghost use Rattle.sp_netlist.specs.Refusals.{IsWithinLimits};
ghost use Rattle.sp_setup.specs.Setup.{plain_setup};
ghost use Rattle.sp_words.specs.declared.interface.PortDecl.{PortDecl};
ghost use Rattle.sp_words.specs.Interface.{Fits, word_count};
ghost use Rattle.sp_words.specs.Ports.{plain_ports};
ghost use Rattle.sp_top.specs.Status.{plain_status, memory};
ghost use Rattle.sp_top.specs.Simulated.{list_status, ListsNone, ListsNetlist};
ghost use Rattle.sp_top.specs.Simulate.{GivesNetlist, ListingRefuses, end_status, GivesSetup, SetupRefuses, PrintsWithin, RunEndsWithin, Dumps, DumpEnds, Shows, ShowEnds, Simulates, SimulateRefuses};

use crate::reads::read_text;
use crate::result_text::cycles_text;
use crate::sinks::Texts;
use crate::status::Status;
use sp_edges::Inputs;
use sp_listing::ListError;
use sp_netlist::{Netlist, ending_kept};
use sp_setup::{Setup, SetupEnd};
use sp_sim::{Sim, SimEnd, SimLoad};
use sp_words::Ports;
use std::alloc::Global;

/// What is shown of a run: its result, or its value change dump.
#[derive(Clone, Copy, Debug)]
pub enum View {
    Outcome,
    Waves,
}

/// The longest listing that is read, in bytes.
pub const LONGEST_LISTING: usize = 268_435_456;

/// The longest setup that is read, in bytes.
pub const LONGEST_SETUP: usize = 4_194_304;

fn status_of_list(error: ListError) -> Status
    ensures { plain_status result ≡ list_status error }
{
    match error {
        ListError::Memory => Status::Memory,
        _ => Status::Listing(error),
    }
}

fn status_of_end(end: SetupEnd) -> Status
    ensures { plain_status result ≡ end_status end }
{
    match end {
        SetupEnd::Refused(error) => Status::Setup(error),
        SetupEnd::ReadFault => Status::ReadFault,
        SetupEnd::TooLong { name } => Status::TooLong { name },
        SetupEnd::Memory => Status::Memory,
    }
}

// The netlist of a listing.
fn netlist_of(alloc: Global, bytes: &[u8]) -> Result<Netlist, Status>
    requires { length bytes.now ≤ LONGEST_LISTING }
    ensures netlist { IfOk result (λ netlist. ListsNetlist bytes.now netlist) }
    ensures refused { IfErr result (λ status. ListsNone bytes.now (plain_status status)) }
{
    match sp_listing::read(alloc, bytes) {
        Ok(netlist) => {
            let _cells = netlist.cells();
            Ok(netlist)
        }
        Err(error) => Err(status_of_list(error)),
    }
}

// The netlist whose listing stands under a name.
fn read_netlist<I: Inputs>(alloc: Global, name: &str, inputs: &mut I) -> Result<Netlist, Status>
    ensures given { IfOk result (λ netlist. GivesNetlist (I.told inputs.old name.now) netlist) }
    ensures asks { OnOk result (I.asked inputs.old (given name.now ∷ []) inputs.new) }
    ensures refused { IfErr result (λ status. ListingRefuses (I.told inputs.old name.now)
        (Rose (I.faults inputs.old) (I.faults inputs.new) × (I.sure inputs.old name.now → ⊥)) (λ calls. I.asked inputs.old calls inputs.new) name.now (plain_status status)) }
    ensures counts { I.faults inputs.old ≤ I.faults inputs.new }
    ensures tells { (n : List ℕ) → I.told inputs.new n ≡ I.told inputs.old n }
    ensures stays_sure { (n : List ℕ) → I.sure inputs.old n → I.sure inputs.new n }
{
    let bytes = read_text(alloc, name, LONGEST_LISTING, inputs)?;
    netlist_of(alloc, &bytes)
}

/// The setup that stands under a name, for these ports.
pub fn setup_for<I: Inputs>(
    alloc: Global,
    ports: &Ports,
    name: &str,
    inputs: &mut I,
) -> Result<Setup, Status>
    requires { All (λ (port : PortDecl). word_count port.dims.items ≤ 67108864) ports.now.drams.items }
    ensures given { IfOk result (λ setup. GivesSetup (I.told inputs.old) (λ calls. I.asked inputs.old calls inputs.new) (plain_ports ports.now) name.now (plain_setup setup)) }
    ensures fits { IfOk result (λ setup. Fits ports.now setup.input) }
    ensures refused { IfErr result (λ status. SetupRefuses (I.told inputs.old)
        (λ name. Rose (I.faults inputs.old) (I.faults inputs.new) × (I.sure inputs.old name → ⊥)) (λ calls. I.asked inputs.old calls inputs.new) (plain_ports ports.now) name.now (plain_status status)) }
{
    let bytes = read_text(alloc, name, LONGEST_SETUP, inputs)?;
    match sp_setup::read(alloc, inputs, ports, &bytes) {
        Ok(setup) => Ok(setup),
        Err(end) => Err(status_of_end(end)),
    }
}

// The setup that stands under a name, for the ports of a netlist.
fn read_setup<I: Inputs>(
    alloc: Global,
    netlist: &Netlist,
    name: &str,
    inputs: &mut I,
) -> Result<Setup, Status>
    requires { IsWithinLimits netlist.now }
    ensures given { IfOk result (λ setup. GivesSetup (I.told inputs.old) (λ calls. I.asked inputs.old calls inputs.new) (ports_of netlist.now) name.now (plain_setup setup)) }
    ensures refused { IfErr result (λ status. SetupRefuses (I.told inputs.old)
        (λ name. Rose (I.faults inputs.old) (I.faults inputs.new) × (I.sure inputs.old name → ⊥)) (λ calls. I.asked inputs.old calls inputs.new) (ports_of netlist.now) name.now (plain_status status)) }
{
    setup_for(alloc, netlist.ports(), name, inputs)
}

// The input of a setup fits the ports, so nothing but memory can be wanting.
impl From<SimLoad> for Status {
    ghost from_gives = { λ _ status. plain_status status ≡ memory };

    fn from(_error: SimLoad) -> Status {
        Status::Memory
    }
}

/// The result of a run that is done within so many cycles, on the input and the delays of a setup.
pub fn run_text(
    alloc: Global,
    netlist: &Netlist,
    setup: &Setup,
    most: u64,
) -> Result<String, Status>
    ensures text { IfOk result (λ text. PrintsWithin netlist.now (plain_setup setup.now) most (string_bytes text)) }
    ensures refused { IfErr result (λ status. RunEndsWithin netlist.now (plain_setup setup.now) most (plain_status status)) }
{
    // an end stands for every number of cycles that has it
    ending_kept();
    let mut sim = Sim::load(alloc, netlist, &setup.input, &setup.delays)?;
    match sim.run(most) {
        SimEnd::Done { cycles } => {
            let output = sim.outputs(alloc)?;
            let text = cycles_text(alloc, netlist.ports(), &output, cycles)?;
            Ok(text)
        }
        SimEnd::Conflict { cycle, bank, port } => Err(Status::Conflict { cycle, bank, port }),
        SimEnd::CyclesSpent => Err(Status::CyclesSpent { cycles: most }),
    }
}

// The value change dump of a run, up to its end or the setup's last cycle.
fn dump_text(alloc: Global, netlist: &Netlist, setup: &Setup) -> Result<String, Status>
    ensures text { IfOk result (λ text. Dumps netlist.now (plain_setup setup.now) (string_bytes text)) }
    ensures refused { IfErr result (λ status. DumpEnds netlist.now (plain_setup setup.now) (plain_status status)) }
{
    let mut sim = Sim::load(alloc, netlist, &setup.input, &setup.delays)?;
    let text = sp_waves::waves(alloc, netlist, &mut sim, setup.cycles)?;
    Ok(text)
}

// What is shown of a run.
fn shown_text(alloc: Global, view: View, netlist: &Netlist, setup: &Setup) -> Result<String, Status>
    ensures text { IfOk result (λ text. Shows view netlist.now (plain_setup setup.now) (string_bytes text)) }
    ensures refused { IfErr result (λ status. ShowEnds view netlist.now (plain_setup setup.now) (plain_status status)) }
{
    match view {
        View::Outcome => run_text(alloc, netlist, setup, setup.cycles),
        View::Waves => dump_text(alloc, netlist, setup),
    }
}

/// Reads a listing and a setup, runs the netlist, and gives what is shown of the run for `out`, and nothing for
/// `aside`.
pub fn simulate<I: Inputs>(
    alloc: Global,
    view: View,
    listing: &str,
    setup: &str,
    inputs: &mut I,
) -> Result<Texts, Status>
    ensures done { IfOk result (λ texts. Simulates (Shows view) (I.told inputs.old) (λ calls. I.asked inputs.old calls inputs.new) listing.now setup.now (string_bytes texts.out) (string_bytes texts.aside)) }
    ensures refused { IfErr result (λ status. SimulateRefuses (ShowEnds view) (I.told inputs.old)
        (λ name. Rose (I.faults inputs.old) (I.faults inputs.new) × (I.sure inputs.old name → ⊥)) (λ calls. I.asked inputs.old calls inputs.new) listing.now setup.now (plain_status status)) }
{
    let netlist = read_netlist(alloc, listing, inputs)?;
    let plan = read_setup(alloc, &netlist, setup, inputs)?;
    Ok(Texts {
        out: shown_text(alloc, view, &netlist, &plan)?,
        aside: String::new(alloc),
    })
}
