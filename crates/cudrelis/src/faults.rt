//! What can end a day before its report, and the program before its end.

use lines::LineFault;
use std::alloc::AllocError;
use std::io;
use terms::Refusal;
use thiserror::Error;

/// A line that is no call, a refusal before the day began, want of memory, or trouble with input or output.
#[derive(Debug, Drop, Error)]
pub(crate) enum DayFault {
    #[error("{0}")]
    Line(LineFault),
    #[error("refused {0}")]
    Refused(#[from] Refusal),
    #[error("not enough memory")]
    Memory(#[from(alloc)] AllocError),
    #[error("{0}")]
    Stream(#[from] io::Error),
}

/// Why the program stops. A day's fault stands in its own variant, since an `anyhow::Error` has no room for a long message.
#[derive(Debug, Drop, Error)]
pub(crate) enum Stop {
    #[error("usage: cudrelis price | cudrelis day [time|size] [SLIPS], from standard input")]
    Usage,
    #[error(transparent)]
    Desk(#[from] anyhow::Error),
    #[error(transparent)]
    Day(#[from] DayFault),
}
