/// A counter of a controller around: its number, and how much more it is from one lane to the next, which is its step for
/// the last counter of its controller and 0 for another.
#[derive(Clone, Copy, Debug)]
pub struct CounterPlace {
    pub id: u32,
    pub lane_step: u32,
}
