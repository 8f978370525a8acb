//! What ends a line, and the first line of a text.

ghost use Rattle.std.specs.Prelude.{◌≡◌, ◌==◌, ◌<◌, ◌≤◌, ◌∷◌, ◌++◌, drop, length};
ghost use Rattle.std.specs.List.{position_or_len};
ghost use Rattle.std.specs.Str.Lines.{strip_carriage_return};
ghost use Rattle.sd_lines.specs.Lines.{HasNoEnd, end_byte, ended_line, lines_in};

/// What ends a line.
#[derive(Clone, Copy, Debug, PartialEq, Eq)]
pub enum Ending {
    /// A line feed. One carriage return before it is no part of the line.
    Feed,
    /// A zero byte.
    Zero,
}

impl Ending {
    fn byte(self) -> u8
        ensures { result ≡ end_byte self }
    {
        match self {
            Ending::Feed => b'\n',
            Ending::Zero => 0,
        }
    }

    /// How many bytes are before the first end of a line, or all if there is none.
    fn place(self, bytes: &[u8]) -> usize
        ensures place { result ≡ position_or_len (λ b. b == end_byte self) bytes.now }
        ensures within { result ≤ length bytes.now }
    {
        memchr::memchr(self.byte(), bytes).unwrap_or(bytes.len())
    }

    /// The bytes before the first end of a line, and those from there on; none if no line ends in the bytes.
    pub(crate) fn split(self, bytes: &[u8]) -> (&[u8], &[u8])
        ensures parts { bytes.now ≡ result.0.now ++ result.1.now }
        ensures none { HasNoEnd self result.0.now }
        ensures end { 0 < length result.1.now → result.1.now ≡ end_byte self ∷ drop 1 result.1.now }
    {
        let end = self.place(bytes);
        (&bytes[..end], &bytes[end..])
    }

    /// The line that had these bytes before its end.
    pub(crate) fn line(self, part: &[u8]) -> &[u8]
        ensures { result.now ≡ ended_line self part.now }
    {
        match self {
            Ending::Feed => without_return(part),
            Ending::Zero => part,
        }
    }
}

/// The first line of a text, and the text after it.
pub fn first_line(ending: Ending, text: &[u8]) -> (&[u8], &[u8])
    requires { 0 < length text.now }
    ensures lines { lines_in ending text.now ≡ result.0.now ∷ lines_in ending result.1.now }
    ensures less { length result.1.now < length text.now }
{
    let (part, left) = ending.split(text);
    if left.is_empty() {
        (part, left)
    } else {
        (ending.line(part), &left[1..])
    }
}

/// A line without one carriage return at its end.
pub fn without_return(line: &[u8]) -> &[u8]
    ensures { result.now ≡ strip_carriage_return line.now }
{
    match line.split_last() {
        Some((b'\r', front)) => front,
        _ => line,
    }
}
