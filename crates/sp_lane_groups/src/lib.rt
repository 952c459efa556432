//! Groups of iterations in lanes: what is done in each lane, reads that stand once, words that are joined, and inner bodies as a
//! whole.
#![tactic(auto)]

mod inners;
mod joined_words;
mod laws;
mod live_lanes;
mod plain_cores;
mod resets;
mod room;
mod runs;
mod shared_reads;
mod values;
mod words;

pub use inners::{inners_go, worked_histories};
pub use joined_words::joined_words_stand;
pub use laws::{
    groups_are_masked, groups_go_along, groups_have_scopes, groups_stand, inners_go_along,
    resets_come_first,
};
pub use live_lanes::{
    accesses_go_along, copies_stand_at_places, counters_go_along, lists_go_along,
    live_lanes_go_along, none_stands_in_first_lane,
};
pub use plain_cores::programs_are_plain;
pub use resets::{programs_reset_first, programs_stand};
pub use room::{copies_have_room, places_have_room};
pub use runs::{accesses_name_memories, masked_lanes_rest};
pub use shared_reads::{shared_reads_stand, shared_words_agree};
pub use values::{first_lanes_are_live, groups_are_iterations};
pub use words::words_stand;
