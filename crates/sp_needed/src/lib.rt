//! What goes wrong by plans that break a rule, each of which would be valid but for that one, and what worked runs cost by
//! plans. Each function does nothing: what it ensures was worked out by hand.
#![tactic(auto)]

mod costs;
mod examples;

pub use costs::worked_costs;
pub use examples::{
    lanes_that_share_miss_words, late_plans_pass_the_limit, rules_keep_ports_apart,
    rules_keep_words, wrong_plans_break_one_rule,
};
