// Words that a message repeats.

use std::fmt;

/// A word as a message for people repeats it: its first characters, and `..` where there are more. By `{}` each of them that is
/// none to be seen, as a line end, is a space; by `{:?}` they stand in quotes.
#[derive(Clone, Copy)]
pub struct Shortened<'a> {
    front: &'a str,
    is_cut: bool,
}

impl<'a> Shortened<'a> {
    /// At most so many characters of a word.
    pub fn new(word: &'a str, most: usize) -> Shortened<'a> {
        for (count, (at, _)) in word.char_indices().enumerate() {
            if count == most {
                let front = word.get(..at).unwrap_or("");
                let is_cut = true;
                return Shortened { front, is_cut };
            }
        }
        Shortened {
            front: word,
            is_cut: false,
        }
    }

    // What follows the first characters.
    fn end(&self) -> &'static str {
        if self.is_cut { ".." } else { "" }
    }
}

impl fmt::Display for Shortened<'_> {
    fn fmt<W: fmt::Write>(&self, f: &mut fmt::Formatter<W>) -> fmt::Result {
        for c in self.front.chars() {
            f.write_char(if c.is_control() { ' ' } else { c })?;
        }
        f.write_str(self.end())
    }
}

impl fmt::Debug for Shortened<'_> {
    fn fmt<W: fmt::Write>(&self, f: &mut fmt::Formatter<W>) -> fmt::Result {
        let front = self.front;
        write!(f, "{front:?}")?;
        f.write_str(self.end())
    }
}
