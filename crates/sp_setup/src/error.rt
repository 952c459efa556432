//! Why a setup gives no input.
ghost use Rattle.std.specs.Prelude.{◌≡◌, IfOk, string_bytes};
ghost use Rattle.sp_setup.specs.Refusal.{path};

use std::alloc::{AllocError, AllocFailed, Global};
use std::error::Error;
use std::fmt;

/// Why a setup is refused. Names are paths, as `turns`, `args.x` or `dram.a`.
#[derive(Debug, Drop)]
pub enum SetupError {
    /// The bytes are no TOML document.
    NoToml,
    /// The key isn't known, or its value isn't of its kind.
    Key { name: String },
    /// The number at this place, counted from 0, is out of range.
    Range { name: String, place: u64 },
    /// The argument has no value.
    Missing { name: String },
    /// A cell of this record of the file, counted from 1, is no number text.
    Csv { name: String, row: u64 },
    /// The file has another number of cells than the DRAM has words.
    Size { name: String, want: u64, got: u64 },
}

impl fmt::Display for SetupError {
    ghost use Rattle.std.specs.Prelude.{Some};
    ghost use Rattle.sp_setup.specs.ErrorText.{error_text};

    ghost output = { λ error. Some (error_text error) };

    fn fmt<W: fmt::Write>(&self, f: &mut fmt::Formatter<W>) -> fmt::Result {
        match self {
            SetupError::NoToml => write!(f, "no toml"),
            SetupError::Key { name } => write!(f, "key {name}"),
            SetupError::Range { name, place } => write!(f, "range {name} at {place}"),
            SetupError::Missing { name } => write!(f, "missing {name}"),
            SetupError::Csv { name, row } => write!(f, "csv {name} row {row}"),
            SetupError::Size { name, want, got } => {
                write!(f, "size {name}, want {want}, got {got}")
            }
        }
    }
}

impl Error for SetupError {}

/// Why no setup was read.
#[derive(Debug, Drop)]
pub enum SetupEnd {
    /// The setup is refused.
    Refused(SetupError),
    /// A file could not be read.
    ReadFault,
    /// What stands under this name is longer than a file that is read.
    TooLong { name: String },
    /// Memory ran out.
    Memory,
}

impl fmt::Display for SetupEnd {
    ghost use Rattle.std.specs.Prelude.{Some};
    ghost use Rattle.sp_setup.specs.ErrorText.{end_text};

    ghost output = { λ end. Some (end_text end) };

    fn fmt<W: fmt::Write>(&self, f: &mut fmt::Formatter<W>) -> fmt::Result {
        match self {
            SetupEnd::Refused(error) => write!(f, "{error}"),
            SetupEnd::ReadFault => write!(f, "read fault"),
            SetupEnd::TooLong { name } => write!(f, "too long: {name}"),
            SetupEnd::Memory => write!(f, "out of memory"),
        }
    }
}

impl Error for SetupEnd {}

impl From<AllocError> for SetupEnd {
    ghost use Rattle.std.specs.Prelude.{◌≡◌};
    ghost use Rattle.sp_setup.specs.declared.error.SetupEnd.TheVariants.{Memory};

    ghost from_gives = { λ _ end. end ≡ Memory };

    fn from(_error: AllocError) -> SetupEnd {
        SetupEnd::Memory
    }
}

impl<T: Drop> From<AllocFailed<T>> for SetupEnd {
    ghost use Rattle.std.specs.Prelude.{◌≡◌};
    ghost use Rattle.sp_setup.specs.declared.error.SetupEnd.TheVariants.{Memory};

    ghost from_gives = { λ _ end. end ≡ Memory };

    fn from(_error: AllocFailed<T>) -> SetupEnd {
        SetupEnd::Memory
    }
}

// `section.name`.
pub(crate) fn path(alloc: Global, section: &str, name: &str) -> Result<String, AllocError>
    ensures { IfOk result (λ text. string_bytes text ≡ path section.now name.now) }
{
    let mut text = String::from_str(alloc, section)?;
    text.push('.')?;
    text.push_str(name)?;
    Ok(text)
}
