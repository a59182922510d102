//! Where the text of a link ends.

ghost use Rattle.std.specs.Prelude.{◌≡◌, ◌≤◌, [], length, take, true, false, MatchOption};
ghost use Rattle.flux_doors.specs.Texts.{ends, least_front, has_front, trimmed, limit_of};

/// How the text of a link ends.
#[derive(Clone, Copy, PartialEq, Eq)]
pub enum Framing {
    /// With an empty line: a request's head.
    Head,
    /// With a line's end.
    Line,
}

/// The most bytes of a head, and of a line.
const HEAD_LIMIT: usize = 16_384;

const LINE_LIMIT: usize = 1_024;

/// A text ends with this byte, in either way: LF.
const LINE_END: u8 = 10;

impl Framing {
    /// The most bytes of a text.
    pub fn limit(self) -> usize
        ensures { result ≡ limit_of self }
    {
        match self {
            Framing::Head => HEAD_LIMIT,
            Framing::Line => LINE_LIMIT,
        }
    }

    /// Whether a text that begins with these bytes ends with them.
    fn ends(self, front: &[u8]) -> bool
        ensures { result ≡ ends self front.now }
    {
        match self {
            Framing::Head => front.ends_with(b"\n\n") || front.ends_with(b"\n\r\n"),
            Framing::Line => front.ends_with(b"\n"),
        }
    }

    /// How many bytes the text has that begins some bytes; None where it doesn't end in them.
    fn find_end(self, bytes: &[u8]) -> Option<usize>
        ensures { MatchOption result
            ((has_front (ends self) [] bytes.now ≡ false) × (least_front (ends self) bytes.now ≡ bytes.now))
            (λ count. (has_front (ends self) [] bytes.now ≡ true) × (count ≤ length bytes.now)
            × (least_front (ends self) bytes.now ≡ take count bytes.now)) }
    {
        for place in 0..bytes.len() {
            if bytes[place] == LINE_END {
                let count = place + 1;
                if self.ends(&bytes[..count]) {
                    return Some(count);
                }
            }
        }
        None
    }

    /// Whether the text ends within some bytes.
    pub fn ends_in(self, bytes: &[u8]) -> bool
        ensures { result ≡ has_front (ends self) [] bytes.now }
    {
        match self.find_end(bytes) {
            Some(_) => true,
            None => false,
        }
    }

    /// The text without its line's end; a head is as it is.
    fn trimmed(self, text: &[u8]) -> &[u8]
        ensures { result.now ≡ trimmed self text.now }
    {
        if self == Framing::Head {
            text
        } else if text.ends_with(b"\r\n") {
            &text[..text.len() - 2]
        } else if text.ends_with(b"\n") {
            &text[..text.len() - 1]
        } else {
            text
        }
    }

    /// The text that some bytes begin with; all of them where it doesn't end there.
    pub fn text_in(self, bytes: &[u8]) -> &[u8]
        ensures { result.now ≡ trimmed self (least_front (ends self) bytes.now) }
    {
        match self.find_end(bytes) {
            Some(count) => self.trimmed(&bytes[..count]),
            None => self.trimmed(bytes),
        }
    }
}
