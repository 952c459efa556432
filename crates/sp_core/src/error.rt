//! Why parts make no core.
ghost use Rattle.std.specs.Prelude.{◌≡◌};
ghost use Rattle.sp_core.specs.declared.error.CoreError.TheVariants.{Memory};

use std::alloc::AllocError;
use thiserror::Error;

/// Why there is no core of these parts.
#[derive(Clone, Copy, Debug, PartialEq, Eq, Drop, Error)]
pub enum CoreError {
    /// The first node in preorder that breaks a rule of cores; 0 where the memories, the ports or the size do by themselves.
    #[error("node {node} breaks a rule of cores")]
    Shape { node: u32 },
    #[error("out of memory")]
    Memory,
}

impl From<AllocError> for CoreError {
    ghost from_gives = { λ _ e. e ≡ Memory };

    fn from(_: AllocError) -> CoreError {
        CoreError::Memory
    }
}
