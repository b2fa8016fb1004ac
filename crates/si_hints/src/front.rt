// The front of a text that was read without a fault: what stands before the statement at which reading stopped.

use si_plain::NoMemory;
use std::alloc::Global;

// What a suite that is open is of, where that says which statements may stand in it.
#[derive(Clone, Copy, PartialEq, Eq)]
enum Suite {
    Function,
    Loop,
    Finally,
}

// A suite that is open, and the column of its clause.
#[derive(Clone, Copy)]
struct Opened {
    suite: Suite,
    column: usize,
}

// Going over the words of a text.
#[derive(Drop)]
struct Front<'a> {
    text: &'a str,
    at: usize,
    line: usize,
    // The line in which reading stopped.
    last: usize,
    suites: Vec<Opened>,
    // Where the parameters of the last function begin.
    parameters: usize,
    // How many bytes may still be gone over again.
    left: usize,
}

// A place before a line up to which a text breaks no rule, where reading it stopped in that line: where a statement begins
// that stands in no other. Only words are looked at, since all that stands before the line was read; what isn't told by
// these alone is left to be gone over, and the place is before it.
pub(crate) fn settled(alloc: Global, text: &str, line: usize) -> Result<usize, NoMemory> {
    let mut front = Front::new(alloc, text, line);
    let mut start = 0;
    for _ in 0..text.len() {
        let column = front.indentation();
        if front.passes_blank() {
            continue;
        }
        if front.line >= line || front.at >= text.len() {
            return Ok(start);
        }
        let word = front.word();
        if column == 0 && !goes_on(word) {
            start = front.at;
        }
        if !front.begins(column, word)? || !front.passes_line() {
            return Ok(start);
        }
    }
    Ok(start)
}

// Whether a word begins a clause that belongs to a statement before it.
fn goes_on(word: &str) -> bool {
    !word.is_empty() && matches!(word, "elif" | "else" | "except" | "finally")
}

// What the suite is of that a word begins, where it matters.
fn suite_of(word: &str) -> Option<Suite> {
    if word.is_empty() {
        return None;
    }
    match word {
        "def" => Some(Suite::Function),
        "for" | "while" => Some(Suite::Loop),
        "finally" => Some(Suite::Finally),
        _ => None,
    }
}

// Whether a name, a keyword or a number may have the byte.
fn continues_word(b: u8) -> bool {
    b.is_ascii_alphanumeric() || b == b'_'
}

// The byte at a place.
fn byte_at(text: &str, at: usize) -> Option<u8> {
    text.as_bytes().get(at).copied()
}

// The end of the word at a place.
fn word_end(text: &str, start: usize) -> usize {
    let bytes = text.as_bytes();
    for at in start..bytes.len() {
        if !continues_word(bytes[at]) {
            return at;
        }
    }
    bytes.len()
}

// The end of the line of a place.
fn line_end(text: &str, start: usize) -> usize {
    let bytes = text.as_bytes();
    for at in start..bytes.len() {
        if matches!(bytes[at], b'\n' | b'\r') {
            return at;
        }
    }
    bytes.len()
}

impl<'a> Front<'a> {
    // Before the first word.
    fn new(alloc: Global, text: &'a str, last: usize) -> Front<'a> {
        Front {
            text,
            at: 0,
            line: 1,
            last,
            suites: Vec::new(alloc),
            parameters: 0,
            left: text.len(),
        }
    }

    // The word that is next, where it may be that of a clause; else it is empty.
    fn word(&self) -> &'a str {
        match byte_at(self.text, self.at) {
            Some(b'd' | b'e' | b'f' | b'w') => {
                let end = word_end(self.text, self.at);
                self.text.get(self.at..end).unwrap_or("")
            }
            _ => "",
        }
    }

    // Passes a byte, and counts the line end that it is.
    fn pass(&mut self, b: u8) {
        let ends = match b {
            b'\r' => true,
            b'\n' => byte_at(self.text, self.at.wrapping_sub(1)) != Some(b'\r'),
            _ => false,
        };
        if ends {
            self.line = self.line.saturating_add(1);
        }
        self.at = self.at.saturating_add(1);
    }

    // Passes the blanks before a line, and tells how many they are.
    fn indentation(&mut self) -> usize {
        let start = self.at;
        for at in start..self.text.len() {
            if !matches!(byte_at(self.text, at), Some(b' ' | b'\t')) {
                self.at = at;
                return at - start;
            }
        }
        self.at = self.text.len();
        0
    }

    // Passes a comment and the end of its line, or the end of a line alone.
    fn passes_blank(&mut self) -> bool {
        if byte_at(self.text, self.at) == Some(b'#') {
            self.at = line_end(self.text, self.at);
        }
        match byte_at(self.text, self.at) {
            Some(b @ (b'\n' | b'\r')) => {
                self.pass(b);
                true
            }
            _ => false,
        }
    }

    // Passes a literal in quotes.
    fn pass_literal(&mut self, quote: u8) {
        let second = byte_at(self.text, self.at.saturating_add(1)) == Some(quote);
        let third = byte_at(self.text, self.at.saturating_add(2)) == Some(quote);
        let count = if second && third { 3 } else { 1 };
        self.at = self.at.saturating_add(count);
        // how many quotes stand in a row just before, and whether a backslash does
        let mut row: usize = 0;
        let mut escaped = false;
        for _ in self.at..self.text.len() {
            let Some(b) = byte_at(self.text, self.at) else {
                return;
            };
            row = if b == quote && !escaped {
                row.saturating_add(1)
            } else {
                0
            };
            escaped = b == b'\\' && !escaped;
            self.pass(b);
            if row == count {
                return;
            }
        }
    }

    // A line begins with a word at a column: tells whether it may.
    fn begins(&mut self, column: usize, word: &str) -> Result<bool, NoMemory> {
        for _ in 0..self.suites.len() {
            match self.suites.last() {
                Some(inner) if inner.column >= column => {
                    let _ = self.suites.pop();
                }
                _ => break,
            }
        }
        let Some(suite) = suite_of(word) else {
            return Ok(true);
        };
        if suite == Suite::Function && !self.defines() {
            return Ok(false);
        }
        self.suites.push(Opened { suite, column })?;
        Ok(true)
    }

    // Whether a suite of a function is open.
    fn in_function(&self) -> bool {
        self.suites
            .iter()
            .any(|opened| opened.suite == Suite::Function)
    }

    // Whether a `return` may stand here.
    fn may_return(&self) -> bool {
        for opened in self.suites.iter().rev() {
            match opened.suite {
                Suite::Function => return true,
                Suite::Finally => return false,
                Suite::Loop => {}
            }
        }
        false
    }

    // Whether a `break` may stand here.
    fn may_break(&self) -> bool {
        match self.suites.last() {
            Some(inner) => inner.suite == Suite::Loop,
            None => false,
        }
    }

    // Passes what is left of a line, and tells whether its statements may stand there.
    fn passes_line(&mut self) -> bool {
        let mut brackets: usize = 0;
        for _ in self.at..self.text.len() {
            let Some(b) = byte_at(self.text, self.at) else {
                return true;
            };
            match b {
                b'\n' | b'\r' => {
                    self.pass(b);
                    if brackets == 0 || self.line > self.last {
                        return true;
                    }
                }
                b'\'' | b'"' => self.pass_literal(b),
                b'#' => self.at = line_end(self.text, self.at),
                b'(' | b'[' | b'{' => {
                    brackets = brackets.saturating_add(1);
                    self.at = self.at.saturating_add(1);
                }
                b')' | b']' | b'}' => {
                    brackets = brackets.saturating_sub(1);
                    self.at = self.at.saturating_add(1);
                }
                _ if continues_word(b) => {
                    if !self.passes_word(b) {
                        return false;
                    }
                }
                _ => self.at = self.at.saturating_add(1),
            }
        }
        true
    }

    // Passes a word that begins with the byte, and tells whether it may stand there.
    fn passes_word(&mut self, first: u8) -> bool {
        let end = word_end(self.text, self.at);
        let stands = match first {
            b'b' | b'c' | b'f' | b'g' | b'i' | b'r' => self.stands(end),
            _ => true,
        };
        self.at = end;
        stands
    }

    // The same of the word up to a place, where it may be one of those that can't stand everywhere.
    fn stands(&mut self, end: usize) -> bool {
        match self.text.get(self.at..end).unwrap_or("") {
            "break" | "continue" => self.may_break(),
            "return" => self.may_return(),
            "import" | "from" => !self.in_function(),
            "global" => self.in_function() && self.declares(end),
            _ => true,
        }
    }

    // Whether a function may be defined here, and its parameters differ.
    fn defines(&mut self) -> bool {
        let end = line_end(self.text, self.at);
        for at in self.at..end {
            if byte_at(self.text, at) == Some(b'(') {
                self.parameters = at;
                if self.in_function() {
                    return false;
                }
                return self.are_new(at, b')', None);
            }
        }
        false
    }

    // Whether the names of a `global`, which stand from a place on, stand nowhere in the function before it.
    fn declares(&mut self, start: usize) -> bool {
        let end = self.at;
        self.are_new(start, b';', Some(end))
    }

    // Whether each name from a place on, up to the end of the line or to a byte, stands nowhere between the parameters of
    // the function and another place, or else itself.
    fn are_new(&mut self, start: usize, last: u8, before: Option<usize>) -> bool {
        let mut at = start;
        for _ in start..self.text.len() {
            let Some(b) = byte_at(self.text, at) else {
                return false;
            };
            if b == last {
                return true;
            }
            match b {
                b'\n' | b'\r' | b'#' => return last == b';',
                _ if continues_word(b) => {
                    let end = word_end(self.text, at);
                    let name = self.text.get(at..end).unwrap_or("");
                    if self.finds(name, before.unwrap_or(at)) {
                        return false;
                    }
                    at = end;
                }
                _ => at = at.saturating_add(1),
            }
        }
        false
    }

    // Whether a name stands between the parameters of the function and a place, or too much was gone over again.
    fn finds(&mut self, name: &str, end: usize) -> bool {
        let size = end.saturating_sub(self.parameters);
        let Some(left) = self.left.checked_sub(size) else {
            return true;
        };
        self.left = left;
        let mut at = self.parameters;
        for _ in 0..size {
            if at >= end {
                return false;
            }
            let next = word_end(self.text, at);
            if next == at {
                at = at.saturating_add(1);
            } else if self.text.get(at..next) == Some(name) {
                return true;
            } else {
                at = next;
            }
        }
        false
    }
}
