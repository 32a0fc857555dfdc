//! What can stop a play: a refusal where none was expected, or the output.

use std::io;
use terms::Refusal;
use thiserror::Error;

#[derive(Debug, Drop, Error)]
pub(crate) enum Fault {
    #[error(transparent)]
    Output(#[from] io::Error),
    #[error("refused: {}", .0.number())]
    Refused(#[from] Refusal),
}
