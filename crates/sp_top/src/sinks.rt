//! How texts and refusals are put on the sinks.
ghost use Rattle.std.specs.Prelude.{◌≡◌, ◌≢◌, ◌<◌, length, string_bytes};
ghost use Rattle.sp_top.specs.Status.{plain_status, line_of, done, write_fault};
ghost use Rattle.sp_top.specs.Record.{Puts, Refuses, Delivers};

use crate::lines::{built_line, constant_line};
use crate::status::{SinkName, Status};
use sp_edges::{Sink, put_text};
use std::alloc::Global;

/// The texts that a command puts on the two sinks.
#[derive(Debug, Drop)]
pub struct Texts {
    pub out: String,
    pub aside: String,
}

/// Puts the text for `aside`, and then the one for `out`, up to the first put that fails.
pub fn deliver<K: Sink, A: Sink>(texts: &Texts, out: &mut K, aside: &mut A) -> Status
    ensures delivered { Delivers (plain_status result) (string_bytes texts.now.out) (string_bytes texts.now.aside)
        (record { before = K.taken out.old; after = K.taken out.new; faults_before = K.faults out.old; faults_after = K.faults out.new; room = K.sure_room out.old; put = λ pieces. K.was_put out.old pieces out.new })
        (record { before = A.taken aside.old; after = A.taken aside.new; faults_before = A.faults aside.old; faults_after = A.faults aside.new; room = A.sure_room aside.old; put = λ pieces. A.was_put aside.old pieces aside.new }) }
{
    if put_text(aside, texts.aside.as_bytes()).is_err() {
        return Status::WriteFault {
            which: SinkName::Aside,
        };
    }
    if put_text(out, texts.out.as_bytes()).is_err() {
        return Status::WriteFault {
            which: SinkName::Out,
        };
    }
    Status::Done
}

// Puts a line as one piece.
fn put_line<K: Sink>(out: &mut K, line: &[u8], status: Status) -> Status
    requires { 0 < length line.now }
    ensures { Puts (plain_status status) (plain_status result) line.now
        (record { before = K.taken out.old; after = K.taken out.new; faults_before = K.faults out.old; faults_after = K.faults out.new; room = K.sure_room out.old; put = λ pieces. K.was_put out.old pieces out.new }) }
{
    match out.put(line) {
        Ok(()) => status,
        Err(_) => Status::WriteFault {
            which: SinkName::Out,
        },
    }
}

/// Puts the line of a refusal on `out`.
pub fn refuse<K: Sink>(alloc: Global, out: &mut K, status: Status) -> Status
    requires not_done { plain_status status ≢ done }
    requires no_fault { (which : _) → plain_status status ≢ write_fault which }
    ensures refused { Refuses (plain_status status) (plain_status result)
        (record { before = K.taken out.old; after = K.taken out.new; faults_before = K.faults out.old; faults_after = K.faults out.new; room = K.sure_room out.old; put = λ pieces. K.was_put out.old pieces out.new }) }
{
    if let Some(line) = constant_line(&status) {
        return put_line(out, line.as_bytes(), status);
    }
    match built_line(alloc, &status) {
        Ok(line) => put_line(out, line.as_bytes(), status),
        Err(_) => put_line(out, b"memory\n", Status::Memory),
    }
}
