//! The tree of a program's text. Every `at` is a byte of the text.

pub mod declaration;
pub mod expression;
pub mod statement;
