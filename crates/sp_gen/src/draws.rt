//! Drawing.
ghost use Rattle.std.specs.Prelude.{◌≡◌, ◌≤◌, IfOk};
ghost use Rattle.sp_gen.specs.Draws.{moved, draw, state_after, drawn, combiner_of, numbers_of};

use crate::NoMemory;
use crate::numbers::{Combiner, Numbers};
use std::alloc::Global;

/// A state, from which draws come.
#[derive(Drop)]
pub struct Draws {
    pub state: u64,
}

#[tactic(auto, unfolding(crate::specs::Draws::combiner_of))]
fn combiner(third: u64) -> Combiner
    ensures { result ≡ combiner_of third }
{
    match third {
        0 => Combiner::Sum,
        1 => Combiner::Either,
        _ => Combiner::Greatest,
    }
}

impl Draws {
    /// The next number of 31 bits.
    #[tactic(auto, unfolding(crate::specs::Draws::moved, crate::specs::Draws::draw))]
    pub fn draw(&mut self) -> u64
        ensures state { self.new.state ≡ moved self.old.state }
        ensures value { result ≡ draw self.old.state }
    {
        let moved = self
            .state
            .wrapping_mul(6_364_136_223_846_793_005)
            .wrapping_add(1_442_695_040_888_963_407);
        let drawn = moved / (1 << 33);
        self.state = moved;
        drawn
    }

    /// The numbers of a program, by five draws.
    #[tactic(auto, unfolding(crate::specs::Draws::numbers_of, crate::specs::Draws::state_after))]
    pub fn numbers(&mut self) -> Numbers
        ensures state { self.new.state ≡ state_after 5 self.old.state }
        ensures numbers { result ≡ numbers_of self.old.state }
        ensures few_tiles { result.tiles ≤ 32 }
        ensures small_tile { result.tile ≤ 256 }
    {
        let tiles = 16 + self.draw() % 17;
        let tile = 64 * (1 + self.draw() % 4);
        let lanes = 1 << (self.draw() % 4);
        let offset = self.draw() % 8;
        let combiner = combiner(self.draw() % 3);
        Numbers {
            tiles,
            tile,
            lanes,
            offset,
            combiner,
        }
    }

    /// The next so many numbers.
    pub fn words(&mut self, alloc: Global, count: u64) -> Result<Vec<u64>, NoMemory>
        ensures { IfOk result (λ words. words.items ≡ drawn count self.old.state) }
    {
        let mut words = Vec::new(alloc);
        for _i in 0..count {
            words.push(self.draw())?;
        }
        Ok(words)
    }
}
