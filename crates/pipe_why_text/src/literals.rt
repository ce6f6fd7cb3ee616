//! The text of a value as it stands in a job.

/// A part of a job's text.
#[derive(Clone, Copy)]
pub struct Literal<'t> {
    pub bytes: &'t [u8],
}

/// Whether a byte ends a number or a word.
fn is_end(byte: u8) -> bool {
    byte == b',' || byte == b']' || byte == b'}' || byte <= b' '
}

/// How many bytes the text in double quotes has with which some bytes begin.
fn string_len(bytes: &[u8]) -> usize {
    let mut is_escaped = false;
    let mut len = 0usize;
    for byte in bytes {
        len = len.saturating_add(1);
        if len == 1 {
            continue;
        }
        if is_escaped {
            is_escaped = false;
        } else if *byte == b'\\' {
            is_escaped = true;
        } else if *byte == b'"' {
            return len;
        }
    }
    len
}

/// How many bytes the array or the object has with which some bytes begin.
fn nested_len(bytes: &[u8]) -> usize {
    let mut len = 0usize;
    let mut depth = 0usize;
    let mut is_text = false;
    let mut is_escaped = false;
    for byte in bytes {
        len = len.saturating_add(1);
        if is_text {
            if is_escaped {
                is_escaped = false;
            } else if *byte == b'\\' {
                is_escaped = true;
            } else if *byte == b'"' {
                is_text = false;
            }
            continue;
        }
        match *byte {
            b'"' => is_text = true,
            b'[' | b'{' => depth = depth.saturating_add(1),
            b']' | b'}' => {
                depth = depth.saturating_sub(1);
                if depth == 0 {
                    return len;
                }
            }
            _ => {}
        }
    }
    len
}

/// How many bytes the number or the word has with which some bytes begin.
fn word_len(bytes: &[u8]) -> usize {
    let mut len = 0usize;
    for byte in bytes {
        if is_end(*byte) {
            return len;
        }
        len = len.saturating_add(1);
    }
    len
}

impl<'t> Literal<'t> {
    /// The value that begins at a place of a text.
    pub fn at(bytes: &'t [u8], at: usize) -> Literal<'t> {
        let rest = bytes.get(at..).unwrap_or(&[]);
        let len = match rest.first() {
            Some(b'"') => string_len(rest),
            Some(b'[' | b'{') => nested_len(rest),
            _ => word_len(rest),
        };
        Literal {
            bytes: rest.get(..len).unwrap_or(&[]),
        }
    }

    /// The first byte, a space where there is none.
    pub fn first(self) -> u8 {
        match self.bytes.first() {
            Some(byte) => *byte,
            None => b' ',
        }
    }

    /// Whether it is a number.
    pub fn is_number(self) -> bool {
        self.first() == b'-' || self.first().is_ascii_digit()
    }

    /// Whether it is a number with a point or an exponent.
    pub fn is_fraction(self) -> bool {
        let mut is_found = false;
        for byte in self.bytes {
            is_found = is_found || *byte == b'.' || *byte == b'e' || *byte == b'E';
        }
        self.is_number() && is_found
    }

    /// Whether it is a text in double quotes.
    pub fn is_text(self) -> bool {
        self.first() == b'"'
    }

    /// What stands in the double quotes.
    pub fn inside(self) -> &'t [u8] {
        let len = self.bytes.len();
        self.bytes.get(1..len.saturating_sub(1)).unwrap_or(&[])
    }

    /// Whether it is a text of digits alone, behind an optional minus sign.
    pub fn is_quoted_number(self) -> bool {
        let mut are_digits = self.is_text() && !self.inside().is_empty();
        for byte in self.inside() {
            are_digits = are_digits && (byte.is_ascii_digit() || *byte == b'-');
        }
        are_digits
    }
}
