//! The grammar: functions from tokens to what stands at their front and the tokens that are left.

mod call;
mod controller;
mod expression;
mod list;
mod name;
mod parser;
mod program;
mod simple;
mod span;
mod statement;
mod types;

pub use parser::{Parser, peek};
