//! Names: which bytes are one, and which are words of the language.

ghost use Rattle.std.specs.Prelude.{◌≡◌, ◌↔◌, IsTrue, Contains};
ghost use Rattle.std.specs.List.{list_all, list_any};
ghost use Rattle.std.specs.Str.{bytes_eq};
ghost use Rattle.sp_words.specs.Names.{is_letter, is_name, is_name_byte, reserved_words};

/// The words of the language that are no names of a program.
const RESERVED_WORDS: [&str; 35] = [
    "val",
    "Accel",
    "ArgIn",
    "ArgOut",
    "DRAM",
    "Reg",
    "SRAM",
    "FIFO",
    "LineBuffer",
    "Int",
    "Bit",
    "FixPt",
    "TRUE",
    "FALSE",
    "true",
    "false",
    "Foreach",
    "Reduce",
    "Fold",
    "MemReduce",
    "FSM",
    "Sequential",
    "Pipe",
    "Parallel",
    "Stream",
    "if",
    "else",
    "mux",
    "min",
    "max",
    "by",
    "par",
    "until",
    "load",
    "store",
];

fn is_letter(byte: u8) -> bool
    ensures { result ≡ is_letter byte }
{
    byte.is_ascii_alphabetic()
}

fn is_name_byte(byte: u8) -> bool
    ensures { result ≡ is_name_byte byte }
{
    is_letter(byte) || byte.is_ascii_digit() || byte == b'_'
}

fn are_name_bytes(bytes: &[u8]) -> bool
    ensures { result ≡ list_all is_name_byte bytes.now }
{
    bytes.iter().all(|byte| is_name_byte(*byte))
}

/// Whether the text is a letter, then letters, digits and `_`.
pub fn is_name(text: &str) -> bool
    ensures { result ≡ is_name text.now }
{
    match text.as_bytes().split_first() {
        Some((first, rest)) => is_letter(*first) && are_name_bytes(rest),
        None => false,
    }
}

fn is_among(words: &[&str], name: &str) -> bool
    ensures { result ≡ list_any (λ word. bytes_eq word.now name.now) words.now }
{
    words.iter().any(|word| *word == name)
}

/// Whether the name is a word of the language.
pub fn is_reserved(name: &str) -> bool
    ensures { IsTrue result ↔ Contains reserved_words name.now }
{
    is_among(&RESERVED_WORDS, name)
}
