//! The accesses of a core, with the controllers around them.
ghost use Rattle.std.specs.Prelude.{◌≡◌, ◌++◌, ◌∷◌, [], map, IfOk, OnOk};
ghost use Rattle.sp_meets.specs.Around.{in_part};
ghost use Rattle.sp_meets.specs.Plain.{plain_level};

use sp_deps::LoopRange;
use std::alloc::{AllocError, Global};

/// Where the places come from at which an access touches a memory: its operands; a slice; counters of its own, word by word;
/// or they aren't known.
#[derive(Clone, Copy, Debug)]
pub enum Places {
    Operands,
    Slice,
    Counters,
    Anywhere,
}

/// A controller, and the part of its body in which an access stands: its counters, whether its parts may be at work at once,
/// whether it is a `Stream` block, what has a copy for each of its groups, and what is declared or written inside.
#[derive(Debug, Drop)]
pub struct Level {
    pub part: u32,
    pub loops: Vec<LoopRange>,
    pub at_once: bool,
    pub streams: bool,
    pub copied: Vec<u32>,
    pub changed: Vec<u32>,
}

/// A memory that an access touches, by its number, with the DRAMs after the memories. It has a counter of its own for each
/// size, with at most so many values.
#[derive(Debug, Drop)]
pub struct Target {
    pub mem: u32,
    pub writes: bool,
    pub places: Places,
    pub sizes: Vec<u32>,
}

/// An access, the controllers around it, outermost first, which spans of its slice are ranges, and how many lengths it has.
#[derive(Debug, Drop)]
pub struct Spot {
    pub number: u32,
    pub path: Vec<Level>,
    pub targets: Vec<Target>,
    pub spans: Vec<bool>,
    pub lengths: usize,
}

fn copy_in_part(alloc: Global, level: &Level, part: u32) -> Result<Level, AllocError>
    ensures { IfOk result (λ l. plain_level l ≡ in_part part (plain_level level.now)) }
{
    Ok(Level {
        part,
        loops: Vec::from_slice(alloc, &level.loops)?,
        at_once: level.at_once,
        streams: level.streams,
        copied: Vec::from_slice(alloc, &level.copied)?,
        changed: Vec::from_slice(alloc, &level.changed)?,
    })
}

fn copy(alloc: Global, level: &Level) -> Result<Level, AllocError>
    ensures { IfOk result (λ l. plain_level l ≡ plain_level level.now) }
{
    copy_in_part(alloc, level, level.part)
}

fn add_levels(alloc: Global, levels: &[Level], path: &mut Vec<Level>) -> Result<(), AllocError>
    ensures { OnOk result (map plain_level path.new.items ≡ map plain_level path.old.items ++ map plain_level levels.now) }
{
    let [level, rest @ ..] = levels else {
        return Ok(());
    };
    path.push(copy(alloc, level)?)?;
    add_levels(alloc, rest, path)
}

/// The same controllers.
pub fn copy_path(alloc: Global, path: &[Level]) -> Result<Vec<Level>, AllocError>
    ensures { IfOk result (λ p. map plain_level p.items ≡ map plain_level path.now) }
{
    let mut same = Vec::new(alloc);
    add_levels(alloc, path, &mut same)?;
    Ok(same)
}

/// Inside of a part of a controller.
pub fn inside(
    alloc: Global,
    path: &[Level],
    level: &Level,
    part: u32,
) -> Result<Vec<Level>, AllocError>
    ensures { IfOk result (λ p. map plain_level p.items ≡ map plain_level path.now ++ in_part part (plain_level level.now) ∷ []) }
{
    let mut within = copy_path(alloc, path)?;
    within.push(copy_in_part(alloc, level, part)?)?;
    Ok(within)
}
