//! What a channel does.
ghost use Rattle.std.specs.Prelude.{◌≡◌};
ghost use Rattle.sp_netlist.specs.Signals as signals;
ghost use Rattle.sp_sim.specs.Phases.{plain_phase, phase_at};

/// A channel is idle, or waits for so many cycles after this one, or moves a word in this cycle and has
/// moved so many since it last asked.
#[derive(Clone, Copy)]
pub(crate) enum Phase {
    Idle,
    Waiting(u32),
    Moving(u8),
}

/// The word of READY.
pub(crate) fn ready_word(phase: Phase) -> u64
    ensures { result ≡ signals.ready_word (plain_phase phase) }
{
    match phase {
        Phase::Moving(_) => 1,
        Phase::Idle | Phase::Waiting(_) => 0,
    }
}

/// Whether the channel asks in this cycle.
pub(crate) fn asks(phase: Phase, request: u64, last: u64) -> bool
    ensures { result ≡ signals.asks (plain_phase phase) request last }
{
    match phase {
        Phase::Idle => request == 1,
        Phase::Waiting(_) => false,
        Phase::Moving(words) => last == 0 && words >= 15,
    }
}

fn after_asking(delay: u32) -> Phase
    ensures { plain_phase result ≡ signals.after_asking delay }
{
    match delay {
        0 => Phase::Moving(0),
        _ => Phase::Waiting(delay - 1),
    }
}

fn after_word(words: u8, last: u64, delay: u32) -> Phase
    ensures { plain_phase result ≡ signals.next_phase (plain_phase (Phase.Moving words)) 0 last delay }
{
    if last != 0 {
        return Phase::Idle;
    }
    if words >= 15 {
        after_asking(delay)
    } else {
        Phase::Moving(words + 1)
    }
}

/// The phase in the next cycle, where the channel takes this delay if it asks.
pub(crate) fn next_phase(phase: Phase, request: u64, last: u64, delay: u32) -> Phase
    ensures { plain_phase result ≡ signals.next_phase (plain_phase phase) request last delay }
{
    match phase {
        Phase::Idle if request == 1 => after_asking(delay),
        Phase::Idle => Phase::Idle,
        Phase::Waiting(cycles) => after_asking(cycles),
        Phase::Moving(words) => after_word(words, last, delay),
    }
}

/// The phase of a channel, and idle where there is none.
#[tactic(auto, unfolding(crate::specs::Phases::phase_at))]
pub(crate) fn phase_of(phases: &[Phase], channel: u64) -> Phase
    ensures { plain_phase result ≡ phase_at phases.now channel }
{
    if channel < phases.len() as u64 {
        phases[channel as usize]
    } else {
        Phase::Idle
    }
}
