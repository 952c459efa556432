//! For each name that it is given, runs the listing NAME.net with the setup NAME.toml, and prints the result text and
//! then the Verilog text of the listing: what checks compare with other simulators.
#![tactic(auto)]

use sp_edges::{HostInputs, HostSink, Inputs};
use sp_listing::read;
use sp_top::{Status, spatialc};
use sp_verilog::verilog;
use std::env;
use std::process::ExitCode;

/// The greatest length of a listing.
const MOST: usize = 268_435_456;

/// Prints what `simulate` prints of a listing that is done or whose taps conflict.
fn print_result(rt: &HostRuntime, listing: &str, setup: &str) -> Result<(), &'static str> {
    let alloc = rt.alloc();
    let words = [
        String::from_str(alloc, "simulate").map_err(|_| "memory")?,
        String::from_str(alloc, listing).map_err(|_| "memory")?,
        String::from_str(alloc, setup).map_err(|_| "memory")?,
    ];
    let mut inputs = HostInputs::new(rt, alloc);
    let mut out = HostSink::stdout(rt, alloc);
    let mut aside = HostSink::file(rt, alloc, "aside");
    match spatialc(alloc, &words, &mut inputs, &mut out, &mut aside) {
        Status::Done | Status::Conflict { .. } => Ok(()),
        _ => Err("a listing was refused or wasn't done"),
    }
}

/// The Verilog text of the listing in the file of that name.
fn text_of(rt: &HostRuntime, name: &str) -> Result<String, &'static str> {
    let alloc = rt.alloc();
    let mut bytes = Vec::new(alloc);
    let mut inputs = HostInputs::new(rt, alloc);
    inputs
        .read_into(name, MOST, &mut bytes)
        .map_err(|_| "the listing can't be read")?;
    if bytes.len() > MOST {
        return Err("the listing is too long");
    }
    let netlist = read(alloc, &bytes).map_err(|_| "the file is no listing")?;
    verilog(alloc, &netlist).map_err(|_| "memory")
}

/// Prints both of one listing.
fn print_listing(rt: &HostRuntime, name: &str) -> Result<(), &'static str> {
    let alloc = rt.alloc();
    let listing = format!(in alloc; "{name}.net").map_err(|_| "memory")?;
    let setup = format!(in alloc; "{name}.toml").map_err(|_| "memory")?;
    println!(rt; "listing {name}").map_err(|_| "the output can't be written")?;
    print_result(rt, &listing, &setup)?;
    let text = text_of(rt, &listing)?;
    print!(rt; "{text}").map_err(|_| "the output can't be written")
}

fn print_all(rt: &HostRuntime) -> Result<(), &'static str> {
    let words = env::args(rt).map_err(|_| "the words can't be read")?;
    for name in words.skip(1) {
        print_listing(rt, &name)?;
    }
    Ok(())
}

fn main(rt: HostRuntime) -> ExitCode {
    match print_all(&rt) {
        Ok(()) => ExitCode::SUCCESS,
        Err(cause) => {
            let _ = eprintln!(rt; "verilog_runs: {cause}");
            ExitCode::FAILURE
        }
    }
}
