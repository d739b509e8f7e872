//! The first line of a text, and the last.

ghost use Rattle.std.specs.Prelude.{◌≡◌, ◌↔◌, ◌<◌, ◌≤◌, ◌∷◌, length, IsTrue};
ghost use Rattle.text_lines.specs.Lines.{end_line, lines};
ghost use Rattle.text_lines.specs.Scanning.{first_length};

/// The first line of a text, with its line feed if it has one, and what stands behind it. A text without bytes has no line.
pub fn cut_line(bytes: &[u8]) -> (&[u8], &[u8])
    requires { 0 < length bytes.now }
    ensures first { lines bytes.now ≡ result.0.now ∷ lines result.1.now }
    ensures shorter { length result.1.now < length bytes.now }
{
    bytes.split_at(line_length(bytes))
}

/// Whether the line is `end`, with its line feed.
pub fn is_end(line: &[u8]) -> bool
    ensures { IsTrue result ↔ (line.now ≡ end_line) }
{
    line == b"end\n".as_slice()
}

/// How many bytes the first line has, with its line feed.
fn line_length(bytes: &[u8]) -> usize
    ensures value { result ≡ first_length bytes.now }
    ensures within { result ≤ length bytes.now }
{
    for i in 0..bytes.len() {
        if bytes[i] == b'\n' {
            return i + 1;
        }
    }
    bytes.len()
}
