//! The nets of numbers by the memories.
ghost use Rattle.std.specs.Prelude.{◌≡◌, ℕ, ◌<◌, length, All, IfOk};
ghost use Rattle.sp_netlist.specs.Draft.{Draft};
ghost use Rattle.sp_tree_events.specs.CopiesStanding.{no_numbers, with_numbers};
ghost use Rattle.sp_copy_nets.specs.Numbers.{StandNumbers};
ghost use Rattle.sp_copy_nets.specs.Table.{numbers_at, own_numbers};

use sp_netlist::{NetId, NoMemory};
use std::alloc::Global;

/// A list for so many memories of which each has one copy.
pub fn no_number_table(alloc: Global, memories: usize) -> Result<Vec<Option<NetId>>, NoMemory>
    ensures long { IfOk result (λ nets. length nets.items ≡ memories) }
    ensures numbers { IfOk result (λ nets. (m : ℕ) → numbers_at nets.items m ≡ no_numbers m) }
    ensures stand { IfOk result (λ nets. (d : Draft) → StandNumbers d nets.items) }
{
    let mut nets = Vec::new(alloc);
    for _memory in 0..memories {
        nets.push(None)?;
    }
    Ok(nets)
}

/// The nets of the numbers of copies inside of a loop, in a list with an entry for each memory: for those that the loop owns these,
/// and for others those around it.
pub fn with_own_numbers(
    alloc: Global,
    around: &[Option<NetId>],
    owned: &[u32],
    own: &[Option<NetId>],
) -> Result<Vec<Option<NetId>>, NoMemory>
    requires owned { All (λ m. m < length around.now) owned.now }
    requires each { length own.now ≡ length owned.now }
    ensures long { IfOk result (λ nets. length nets.items ≡ length around.now) }
    ensures stand { IfOk result (λ nets. (d : Draft) → StandNumbers d around.now → StandNumbers d own.now → StandNumbers d nets.items) }
    ensures numbers { IfOk result (λ nets. (m : ℕ) → numbers_at nets.items m ≡ with_numbers (numbers_at around.now) owned.now (own_numbers owned.now own.now) m) }
{
    let [memory, others @ ..] = owned else {
        return Ok(Vec::from_slice(alloc, around)?);
    };
    let [net, nets @ ..] = own else {
        return Ok(Vec::from_slice(alloc, around)?);
    };
    let mut table = with_own_numbers(alloc, around, others, nets)?;
    table[*memory as usize] = *net;
    Ok(table)
}
