//! A line's words as they were read, with single spaces, and the line that answers it.

ghost use Rattle.std.specs.Prelude.{◌≡◌, Some, IfOk};
ghost use Rattle.std.specs.Fmt.{WritesOnOk};
ghost use Rattle.script.specs.Words.{words, remaining};
ghost use Rattle.lines.specs.Answers.{answered};
ghost use Rattle.lines.specs.Spelling.{trailed, spaced};

use crate::answers::Answer;
use script::Reader;
use std::{fmt, str};

/// The line that is echoed. Words that are no text are not written: the writing fails there.
#[derive(Clone, Copy)]
pub struct Echo<'a> {
    pub line: &'a [u8],
}

/// The text of a word.
fn text_of(word: &[u8]) -> Result<&str, fmt::Error>
    ensures { IfOk result (λ text. text.now ≡ word.now) }
{
    str::from_utf8(word).map_err(|_| fmt::Error)
}

/// Writes the words that a reader has still to give, a space before each.
fn trail<W: fmt::Write>(reader: Reader, f: &mut fmt::Formatter<W>) -> fmt::Result
    ensures { WritesOnOk W.Write.write_str_gives f.old result (trailed (remaining reader.entry)) f.new }
{
    for word in reader {
        write!(f, " {}", text_of(word)?)?;
    }
    Ok(())
}

impl fmt::Display for Echo<'_> {
    ghost output = { λ x. Some (spaced (words x.line.now)) };

    fn fmt<W: fmt::Write>(&self, f: &mut fmt::Formatter<W>) -> fmt::Result {
        let mut reader = Reader::new(self.line);
        let Some(word) = reader.next() else {
            return Ok(());
        };
        f.write_str(text_of(word)?)?;
        trail(reader, f)
    }
}

/// An answered call as it is printed: the number of its line, the line's words, and the answer.
#[derive(Clone, Copy)]
pub struct Answered<'a> {
    pub number: u64,
    pub line: &'a [u8],
    pub answer: Answer,
}

impl fmt::Display for Answered<'_> {
    ghost output = { λ x. Some (answered x.number (words x.line.now) x.answer) };

    fn fmt<W: fmt::Write>(&self, f: &mut fmt::Formatter<W>) -> fmt::Result {
        let number = self.number;
        let line = self.line;
        let answer = self.answer;
        write!(f, "{number}: {} -> {answer}", Echo { line })
    }
}
