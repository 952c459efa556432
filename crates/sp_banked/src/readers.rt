//! The readers of a memory in banks.
ghost use Rattle.std.specs.Prelude.{◌≡◌, ℕ, ◌+◌, ◌*◌, ◌^◌, ◌<◌, ◌≤◌, ◌&&◌, ◌==◌, if◌then◌else◌, [], ◌∷◌, length, All, IfOk, OnOk};
ghost use Rattle.sp_netlist.specs.Rules.{IsWidth};
ghost use Rattle.sp_netlist.specs.Signals.{Signals};
ghost use Rattle.sp_gates.specs.Bits.{IsOne};
ghost use Rattle.sp_gates.specs.Grows.{Fills};
ghost use Rattle.sp_gates.specs.Nets.{HasNet, Awaits};
ghost use Rattle.sp_gates.specs.Runs.{RunsOn};
ghost use Rattle.sp_requests.specs.Requests.{RequestFits};
ghost use Rattle.sp_banked.specs.Readers.{FoundFit, AreApart, words_of, IsFound, RunsReader, ReaderFits};

use sp_gates::{choose, constant, drive, equals, hold, on_both};
use sp_netlist::{Builder, NetId, NoMemory};
use sp_requests::Request;
use sp_taps::Store;
use sp_words::Ty;

/// The word of a bank where its copy and its number stand on the two nets, else another word.
fn found_at(
    builder: &mut Builder,
    width: u8,
    copy: NetId,
    bank: NetId,
    line: (u32, u32),
    found: NetId,
    other: NetId,
) -> Result<NetId, NoMemory>
    requires width { IsWidth width }
    requires copy { HasNet builder.old copy 32 }
    requires bank { HasNet builder.old bank 32 }
    requires found { HasNet builder.old found width }
    requires other { HasNet builder.old other width }
    ensures fills { OnOk result (Fills builder.old builder.new []) }
    ensures net { IfOk result (λ net. HasNet builder.new net width) }
    ensures word { IfOk result (λ net. (s : Signals) → RunsOn s builder.new.cells → (t : ℕ) → s.net t net ≡ (if (s.net t copy == line.0) && (s.net t bank == line.1) then s.net t found else s.net t other)) }
{
    let same_copy = equals(builder, Ty::int(), copy, u64::from(line.0))?;
    let same_bank = equals(builder, Ty::int(), bank, u64::from(line.1))?;
    let here = on_both(builder, same_copy, same_bank)?;
    let net = choose(builder, width, here, found, other)?;
    Ok(net)
}

/// The word that was found in the bank whose copy and number stand on the two nets, among so many banks from one on.
fn found_of(
    builder: &mut Builder,
    width: u8,
    copy: NetId,
    bank: NetId,
    stores: &[Store],
    from: usize,
    lines: u32,
    banks: u32,
) -> Result<NetId, NoMemory>
    requires width { IsWidth width }
    requires copy { HasNet builder.old copy 32 }
    requires bank { HasNet builder.old bank 32 }
    requires stores { All (FoundFit builder.old width) stores.now }
    requires within { from + lines ≤ length stores.now }
    requires some { 0 < banks }
    ensures fills { OnOk result (Fills builder.old builder.new []) }
    ensures net { IfOk result (λ net. HasNet builder.new net width) }
    ensures word { IfOk result (λ net. (s : Signals) → RunsOn s builder.new.cells → (t : ℕ) → IsFound s t copy bank stores.now from lines banks net) }
{
    let mut word = constant(builder, width, 0)?;
    for i in 0..lines {
        let found = stores[from + i as usize].found;
        word = found_at(
            builder,
            width,
            copy,
            bank,
            (i / banks, i % banks),
            found,
            word,
        )?;
    }
    Ok(word)
}

/// Drives the net of a reader: the word that it found two cycles after it asked. `one` is always 1.
fn emit_reader(
    builder: &mut Builder,
    width: u8,
    request: &Request,
    stores: &[Store],
    lines: u32,
    banks: u32,
    one: NetId,
) -> Result<(), NoMemory>
    requires width { IsWidth width }
    requires request { RequestFits builder.old request.now }
    requires word { Awaits builder.old request.now.word width }
    requires stores { All (FoundFit builder.old width) stores.now }
    requires within { request.now.duplicate * lines + lines ≤ length stores.now }
    requires few { length stores.now < 2 ^ 32 }
    requires some { 0 < banks }
    requires one { IsOne builder.old one }
    ensures fills { OnOk result (Fills builder.old builder.new (request.now.word ∷ [])) }
    ensures runs { OnOk result ((s : Signals) → RunsOn s builder.new.cells → RunsReader s stores.now lines banks request.now) }
{
    let copy = hold(builder, 32, 0, request.copy, one)?;
    let bank = hold(builder, 32, 0, request.bank, one)?;
    let from = (request.duplicate * lines) as usize;
    let word = found_of(builder, width, copy, bank, stores, from, lines, banks)?;
    drive(builder, request.word, width, 0, word, one)?;
    Ok(())
}

/// Drives the nets of all readers.
pub fn emit_readers(
    builder: &mut Builder,
    width: u8,
    requests: &[Request],
    stores: &[Store],
    lines: u32,
    banks: u32,
    one: NetId,
) -> Result<(), NoMemory>
    requires width { IsWidth width }
    requires requests { All (ReaderFits builder.old width (length stores.now) lines) requests.now }
    requires apart { AreApart requests.now }
    requires stores { All (FoundFit builder.old width) stores.now }
    requires few { length stores.now < 2 ^ 32 }
    requires some { 0 < banks }
    requires one { IsOne builder.old one }
    ensures fills { OnOk result (Fills builder.old builder.new (words_of requests.now)) }
    ensures runs { OnOk result ((s : Signals) → RunsOn s builder.new.cells → All (RunsReader s stores.now lines banks) requests.now) }
{
    for r in requests {
        emit_reader(builder, width, r, stores, lines, banks, one)?;
    }
    Ok(())
}
