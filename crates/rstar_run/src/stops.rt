//! How a run ends, and the status of that.

ghost use Rattle.std.specs.Prelude.{◌≡◌};
ghost use Rattle.rstar_run.specs.Statuses.{status_of};
ghost use Rattle.rstar_run.specs.declared.stops.Stop.TheVariants.{Memory};

use std::alloc::{AllocError, AllocFailed};

/// Why a run stops before the end of its input.
#[derive(Clone, Copy, Debug, PartialEq, Eq)]
pub enum Stop {
    /// A bad line, by its number from 1 on.
    Line(u64),
    /// Memory was refused, or the tree cannot count one more element.
    Memory,
    /// A read failed.
    Input,
    /// A write failed.
    Output,
}

impl From<AllocError> for Stop {
    ghost from_gives = { λ _ e. e ≡ Memory };

    fn from(_e: AllocError) -> Stop {
        Stop::Memory
    }
}

impl<T: Drop> From<AllocFailed<T>> for Stop {
    ghost from_gives = { λ _ e. e ≡ Memory };

    fn from(_e: AllocFailed<T>) -> Stop {
        Stop::Memory
    }
}

/// The exit status of a run.
pub fn status(ended: Result<(), Stop>) -> u8
    ensures { result ≡ status_of ended }
{
    match ended {
        Ok(()) => 0,
        Err(Stop::Line(_)) => 2,
        Err(Stop::Memory) => 3,
        Err(Stop::Input | Stop::Output) => 4,
    }
}
