//! The words of a line, one after another.

ghost use Rattle.std.specs.Prelude.{◌≡◌};
ghost use Rattle.std.specs.Iterator.{item_count};
ghost use Rattle.script.specs.Words.{blank, plain, words, remaining, Gives, Parted};

/// What is still to be read of a line. A copy reads on from there by itself.
#[derive(Clone, Copy)]
pub struct Reader<'a> {
    rest: &'a [u8],
}

/// Words stand apart by spaces, tabs and carriage returns.
fn is_blank(byte: u8) -> bool
    ensures { result ≡ blank byte }
{
    matches!(byte, b' ' | b'\t' | b'\r')
}

/// A word is made of what is neither a blank nor the '#' that ends the line.
fn is_plain(byte: u8) -> bool
    ensures { result ≡ plain byte }
{
    byte != b'#' && !is_blank(byte)
}

impl<'a> Reader<'a> {
    /// All the words of a line are still to give.
    pub fn new(line: &'a [u8]) -> Reader<'a>
        ensures value { remaining result ≡ words line.now }
        ensures parted { Parted line.now (remaining result) }
    {
        Reader { rest: line }
    }
}

/// It gives the words in their order; at the end there is none, and the reader stays there.
impl<'a> Iterator for Reader<'a> {
    type Item = &'a [u8];

    ghost next_gives = { λ before word after. Gives (remaining before) word (remaining after) };

    ghost remaining = { item_count remaining };

    fn next(&mut self) -> Option<&'a [u8]> {
        let blanks = self.rest.iter().take_while(|byte| is_blank(**byte)).count();
        let (_, text) = self.rest.split_at(blanks);
        let length = text.iter().take_while(|byte| is_plain(**byte)).count();
        if length == 0 {
            return None;
        }
        let (word, rest) = text.split_at(length);
        self.rest = rest;
        Some(word)
    }
}
