// Standard output and the files of the machine, as sinks.
ghost use Rattle.std.specs.Prelude.{◌≡◌, ◌≤◌, [], ◌∷◌, None, OnErr, refl};
ghost use Rattle.sp_edges.specs.Counts.{Rose};
ghost use Rattle.sp_edges.specs.Calls.{Counts, Counts-none, Counts-append};

use crate::faults::count_fault;
use crate::output::{Sink, SinkFailed};
use std::alloc::Global;
use std::fs;
use std::io::{self, ErrorKind, Write};
use std::marker::Model;
use std::rt::Files;

/// Standard output or a file of the current folder. Nothing is told of it, and no room is sure.
#[derive(Drop)]
pub struct HostSink<'a, R: Files> {
    rt: &'a R,
    alloc: Global,
    to: Destination<'a, R>,
    faults: u64,
}

// Where the bytes go. A file is made at the first put.
#[derive(Drop)]
enum Destination<'a, R: Files> {
    Stdout,
    Unmade(&'a str),
    Made(R::File),
}

impl<'a, R: Files> Model for HostSink<'a, R> {
    ghost use Rattle.std.specs.Prelude.{ℕ};

    ghost Value = { ℕ };

    ghost view = { λ sink. sink.faults };
}

impl<'a, R: Files + Print> HostSink<'a, R> {
    /// Standard output. Takes no memory.
    pub fn stdout(rt: &'a R, alloc: Global) -> HostSink<'a, R>
        ensures { result ≡ 0 }
    {
        HostSink {
            rt,
            alloc,
            to: Destination::Stdout,
            faults: 0,
        }
    }

    /// The file of this name, which is made, or emptied, at the first put. Takes no memory.
    pub fn file(rt: &'a R, alloc: Global, name: &'a str) -> HostSink<'a, R>
        ensures { result ≡ 0 }
    {
        HostSink {
            rt,
            alloc,
            to: Destination::Unmade(name),
            faults: 0,
        }
    }
}

impl<'a, R: Files + Print> Sink for HostSink<'a, R> {
    ghost taken = { λ _. None };

    ghost faults = { λ sink. sink };

    ghost sure_room = { λ _. 0 };

    ghost was_put = { Counts };

    ghost no_put = { Counts-none };

    ghost stays = { λ _ _ same. same.1 refl };

    ghost more_puts = { Counts-append };

    fn put(&mut self, piece: &[u8]) -> Result<(), SinkFailed> {
        if let Destination::Unmade(name) = self.to {
            match fs::create(self.rt, name) {
                Ok(file) => self.to = Destination::Made(file),
                Err(_) => {
                    count_fault(&mut self.faults);
                    return Err(SinkFailed);
                }
            }
        }
        match &mut self.to {
            Destination::Made(file) => write_whole(file, &mut self.faults, piece),
            _ => write_whole(&mut io::writer(self.rt), &mut self.faults, piece),
        }
    }
}

// Writes the whole piece. Every error is counted, and so is a write that takes nothing; one that is not
// an interruption ends it.
fn write_whole<W: Write>(to: &mut W, faults: &mut u64, piece: &[u8]) -> Result<(), SinkFailed>
    ensures failed { OnErr result (Rose faults.old faults.new) }
    ensures counts { faults.old ≤ faults.new }
{
    let mut rest = piece;
    for _ in 0..u64::MAX {
        if rest.is_empty() {
            return Ok(());
        }
        match to.write(rest) {
            Ok(0) => break,
            Ok(count) => rest = &rest[count..],
            Err(error) => {
                count_fault(faults);
                if error.kind() != ErrorKind::Interrupted {
                    return Err(SinkFailed);
                }
            }
        }
    }
    count_fault(faults);
    Err(SinkFailed)
}

#[cfg(test)]
mod tests {
    use super::*;

    // Writes that take so many bytes, or are interrupted.
    #[derive(Drop)]
    struct Writes<'a> {
        left: &'a [Option<usize>],
    }

    impl Write for Writes<'_> {
        fn write(&mut self, buf: &[u8]) -> io::Result<usize> {
            let Some((first, left)) = self.left.split_first() else {
                return Err(io::Error::from(ErrorKind::Other));
            };
            self.left = left;
            match first {
                Some(count) => Ok(buf.len().min(*count)),
                None => Err(io::Error::from(ErrorKind::Interrupted)),
            }
        }

        fn flush(&mut self) -> io::Result<()> {
            Ok(())
        }
    }

    #[test]
    fn write_goes_on_after_an_interruption_and_fails_at_an_error(rt: HostRuntime) {
        let cases: [(&[Option<usize>], Result<(), SinkFailed>, u64); 4] = [
            (&[Some(2), None, Some(9)], Ok(()), 1),
            (&[Some(2), Some(0), Some(9)], Err(SinkFailed), 1),
            (&[Some(2), None], Err(SinkFailed), 2),
            (&[], Err(SinkFailed), 1),
        ];
        for (number, (left, answer, count)) in cases.iter().enumerate() {
            let mut faults = 0;
            let found = write_whole(&mut Writes { left }, &mut faults, b"abcd");
            assert_eq!(rt; found, *answer, "case {number}");
            assert_eq!(rt; faults, *count, "case {number}");
        }
    }
}
