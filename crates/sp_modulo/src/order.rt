ghost use Rattle.std.specs.Prelude.{◌≡◌, ◌+◌, ◌-◌, ◌*◌};

/// An order of two operations, by their places: the second one, in the group this many groups later, is at least `gap`
/// cycles after the first; 0 is the same group.
#[derive(Clone, Copy, Debug, PartialEq, Eq)]
pub struct Order {
    pub first: u32,
    pub second: u32,
    pub gap: u32,
    pub distance: u64,
}

impl Order {
    /// The earliest time of the second operation, where the first one is at a time and groups begin at an interval.
    pub fn earliest(self, first: u32, interval: u32) -> u64
        ensures { result ≡ (first + self.gap) - self.distance * interval }
    {
        let after = u64::from(first) + u64::from(self.gap);
        after.saturating_sub(self.distance.saturating_mul(u64::from(interval)))
    }
}
