use sp_words::{Kind, Ty};

/// A memory of the program: its name, its kind, the type of its words and its dimensions, outermost first.
/// A FIFO has one, its depth; a line buffer has two, its rows and their columns; a register, an argument
/// and an output have none. `start` is the word that a register begins with, where it has one. `at` is the
/// byte of the program's text at which the declaration begins.
#[derive(Debug, Drop)]
pub struct MemDecl {
    pub name: String,
    pub kind: Kind,
    pub ty: Ty,
    pub dims: Vec<u32>,
    pub start: Option<u64>,
    pub at: u32,
}
