//! A script, line by line.

use lines::{LineFault, read_line};
use std::alloc::{AllocError, Global};
use terms::Call;

/// A line that is a call.
#[derive(Clone, Copy)]
pub(crate) struct Line<'a> {
    pub(crate) number: u64,
    pub(crate) text: &'a [u8],
}

/// A script up to its end, or up to the first line that is no call. The calls stand by themselves, since a day takes them as a slice.
#[derive(Drop)]
pub(crate) struct Script<'a> {
    pub(crate) lines: Vec<Line<'a>>,
    pub(crate) calls: Vec<Call>,
    pub(crate) fault: Option<LineFault>,
}

/// Reads the lines of a text.
pub(crate) fn read_script<'a>(heap: Global, text: &'a [u8]) -> Result<Script<'a>, AllocError> {
    let mut script = Script {
        lines: Vec::new(heap),
        calls: Vec::new(heap),
        fault: None,
    };
    for (number, line) in (1..).zip(text.split(|byte| *byte == b'\n')) {
        match read_line(number, line) {
            Ok(None) => {}
            Ok(Some(call)) => {
                script.calls.push(call)?;
                script.lines.push(Line { number, text: line })?;
            }
            Err(fault) => {
                script.fault = Some(fault);
                break;
            }
        }
    }
    Ok(script)
}
