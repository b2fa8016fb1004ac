// The line ends of a text.

ghost use Rattle.std.specs.Prelude.{◌≡◌, ◌≤◌, length, min};
ghost use Rattle.si_plain.specs.LineEnds.{begins_feed, ends_line, ends_before};

/// How many line ends lie in the first so many bytes of a text (Python Language Reference 3.14, 2.1.2 "Physical
/// lines"): LF, CR and CR LF, which is one and lies where its LF does.
pub fn line_ends(text: &[u8], count: usize) -> usize
    ensures ends { result ≡ ends_before count text.now }
    ensures few { result ≤ min count (length text.now) }
{
    let mut ends = 0;
    for place in 0..count.min(text.len()) {
        if ends_line(text[place], &text[place + 1..]) {
            ends += 1;
        }
    }
    ends
}

// Whether a byte is the last of a line end, where these follow.
fn ends_line(byte: u8, after: &[u8]) -> bool
    ensures { result ≡ ends_line byte after.now }
{
    byte == b'\n' || byte == b'\r' && !begins_feed(after)
}

fn begins_feed(text: &[u8]) -> bool
    ensures { result ≡ begins_feed text.now }
{
    text.first() == Some(&b'\n')
}
