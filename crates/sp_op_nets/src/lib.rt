//! The nets of the operations of a core's list, by the nets of the counters around.
#![tactic(auto)]

mod acted;
mod laws;
mod nets;
mod table;

pub use acted::ActedList;
pub use laws::{
    answers_are_reserved, answers_come_after, answers_have_nets, counters_stand,
    fills_are_reserved, nets_fit, operations_are_given, promised_are_reserved, reserved_are_driven,
    reserved_come_together, reserved_stay, same_nets_give, some_reserved_are_driven, worked_nets,
};
pub use nets::{op_net, op_nets};
pub use table::AroundNets;
