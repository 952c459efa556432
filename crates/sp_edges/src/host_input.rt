// The files of the machine, as inputs.
ghost use Rattle.std.specs.Prelude.{◌≡◌, ◌<◌, ◌≤◌, [], ◌∷◌, length, OnOk, OnErr, Err, refl};
ghost use Rattle.sp_edges.specs.Counts.{one_more, Rose};
ghost use Rattle.sp_edges.specs.Calls.{Call, Counts, Counts-none, Counts-append};
ghost use Rattle.sp_edges.specs.Standing.{Standing, Untold, AppendsAll, AppendsPast, AppendsPart};

use crate::faults::count_fault;
use crate::input::{InputFault, Inputs};
use std::alloc::Global;
use std::fs;
use std::io::{ErrorKind, Read};
use std::marker::Model;
use std::rt::Files;

// How many bytes one read asks for.
const BUFFER: usize = 65_536;

/// The files of the current folder, by name. Nothing is told of them, and no name is sure.
#[derive(Drop)]
pub struct HostInputs<'a, R> {
    rt: &'a R,
    alloc: Global,
    faults: u64,
}

impl<'a, R> Model for HostInputs<'a, R> {
    ghost use Rattle.std.specs.Prelude.{ℕ};

    ghost Value = { ℕ };

    ghost view = { λ inputs. inputs.faults };
}

impl<'a, R: Files> HostInputs<'a, R> {
    /// Keeps the runtime and the allocator. Takes no memory.
    pub fn new(rt: &'a R, alloc: Global) -> HostInputs<'a, R>
        ensures { result ≡ 0 }
    {
        HostInputs {
            rt,
            alloc,
            faults: 0,
        }
    }
}

impl<'a, R: Files> Inputs for HostInputs<'a, R> {
    ghost told = { λ _ _. Untold };

    ghost faults = { λ inputs. inputs };

    ghost sure = { λ _ _. ⊥ };

    ghost asked = { Counts };

    ghost sure_is_told = { λ _ _ sure. absurd sure };

    ghost no_call = { Counts-none };

    ghost stays = { λ _ _ same. same.1 refl };

    ghost more_calls = { Counts-append };

    fn read_into(&mut self, name: &str, most: usize, into: &mut Vec<u8>) -> Result<(), InputFault> {
        let Ok(mut buffer) = vec![in self.alloc; 0u8; BUFFER] else {
            return Err(InputFault::Memory);
        };
        match fs::open(self.rt, name) {
            Ok(mut file) => read_at_most(
                &mut file,
                &mut self.faults,
                buffer.as_mut_slice(),
                most,
                into,
            ),
            Err(_) => {
                count_fault(&mut self.faults);
                Err(InputFault::Failed)
            }
        }
    }
}

// Reads a file to its end, or up to `most + 1` bytes. Every error is counted, and one that is not an
// interruption ends it.
fn read_at_most<F: Read>(
    file: &mut F,
    faults: &mut u64,
    buffer: &mut [u8],
    most: usize,
    into: &mut Vec<u8>,
) -> Result<(), InputFault>
    requires { 0 < length buffer.old }
    ensures all { OnOk result (AppendsAll Untold most into.old.items into.new.items) }
    ensures too_long { result ≡ Err InputFault.TooLong → AppendsPast Untold most into.old.items into.new.items }
    ensures part { OnErr result (AppendsPart Untold into.old.items into.new.items) }
    ensures failed { result ≡ Err InputFault.Failed → Rose faults.old faults.new }
    ensures counts { faults.old ≤ faults.new }
{
    let start = into.len();
    for _ in 0..u64::MAX {
        let left = most - (into.len() - start);
        let len = buffer.len().min(left.saturating_add(1));
        match file.read(&mut buffer[..len]) {
            Ok(0) => return Ok(()),
            Ok(count) => {
                if into.extend_from_slice(&buffer[..count]).is_err() {
                    return Err(InputFault::Memory);
                }
                if count > left {
                    return Err(InputFault::TooLong);
                }
            }
            Err(error) => {
                count_fault(faults);
                if error.kind() != ErrorKind::Interrupted {
                    return Err(InputFault::Failed);
                }
            }
        }
    }
    count_fault(faults);
    Err(InputFault::Failed)
}

#[cfg(test)]
mod tests {
    use super::*;
    use std::io;
    use std::test::Fail;

    // Reads that give so many bytes, each of them the count, or are interrupted; then one that fails.
    #[derive(Drop)]
    struct Reads<'a> {
        left: &'a [Option<u8>],
    }

    impl Read for Reads<'_> {
        fn read(&mut self, buf: &mut [u8]) -> io::Result<usize> {
            let Some((first, left)) = self.left.split_first() else {
                return Err(io::Error::from(ErrorKind::Other));
            };
            self.left = left;
            match first {
                Some(count) => {
                    let len = buf.len().min(usize::from(*count));
                    buf[..len].fill(*count);
                    Ok(len)
                }
                None => Err(io::Error::from(ErrorKind::Interrupted)),
            }
        }
    }

    #[test]
    fn read_goes_on_after_an_interruption_and_fails_at_an_error(
        rt: HostRuntime,
    ) -> Result<(), Fail> {
        let cases: [(&[Option<u8>], usize, Result<(), InputFault>, &[u8], u64); 5] = [
            (
                &[Some(3), None, Some(2), Some(0)],
                5,
                Ok(()),
                &[3, 3, 3, 2, 2],
                1,
            ),
            (
                &[Some(3), None, Some(2), Some(0)],
                4,
                Err(InputFault::TooLong),
                &[3, 3, 3, 2, 2],
                1,
            ),
            (
                &[Some(4), Some(2)],
                2,
                Err(InputFault::TooLong),
                &[4, 4, 4],
                0,
            ),
            (&[Some(3), None], 9, Err(InputFault::Failed), &[3, 3, 3], 2),
            (&[], 9, Err(InputFault::Failed), &[], 1),
        ];
        for (left, most, answer, bytes, count) in cases {
            let mut reads = Reads { left };
            let mut faults = 0;
            let mut into = Vec::new(rt.alloc());
            let found = read_at_most(&mut reads, &mut faults, &mut [0; 8], most, &mut into);
            assert_eq!(rt; found, answer, "{left:?}");
            assert_eq!(rt; into.as_slice(), bytes, "{left:?}");
            assert_eq!(rt; faults, count, "{left:?}");
        }
        Ok(())
    }
}
