// Why a line gives no command.
ghost use Rattle.std.specs.Prelude.{◌≡◌, alloc_error};
ghost use Rattle.script.specs.declared.error.ParseError.TheVariants.{OutOfMemory};

use std::alloc::{AllocError, AllocFailed};

#[derive(Clone, Copy, Debug, PartialEq, Eq)]
pub enum ParseError {
    // the line says no command
    Unknown,
    OutOfMemory(AllocError),
}

impl<T: Drop> From<AllocFailed<T>> for ParseError {
    ghost from_gives = { λ _ e. e ≡ OutOfMemory alloc_error };

    fn from(failed: AllocFailed<T>) -> ParseError {
        ParseError::OutOfMemory(failed.into())
    }
}
