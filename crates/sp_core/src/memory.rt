use sp_words::{Kind, Ty};

/// A memory of a core: its name, its kind, the type of its words and its dimensions, outermost first. A FIFO has one,
/// its depth; a line buffer has two, its rows and their columns; a register, an argument and an output have none.
/// `start` is the word that a register begins with, where it has one. `written` tells that it stands in the program's
/// text.
#[derive(Debug, Drop)]
pub struct CoreMem {
    pub name: String,
    pub kind: Kind,
    pub ty: Ty,
    pub dims: Vec<u32>,
    pub start: Option<u64>,
    pub written: bool,
}
