//! Why a text in double quotes isn't one.

/// What is wrong with a text, and where.
#[derive(Clone, Copy)]
pub(crate) struct BadString {
    pub(crate) at: usize,
    pub(crate) hint: &'static str,
}

/// Whether a byte may stand behind a backslash.
fn is_escape(byte: u8) -> bool {
    matches!(
        byte,
        b'"' | b'\\' | b'/' | b'b' | b'f' | b'n' | b'r' | b't' | b'u'
    )
}

/// What is wrong with the text that begins at a place, which is no good one.
pub(crate) fn bad_string(bytes: &[u8], start: usize) -> BadString {
    let mut at = start;
    let mut is_escaped = false;
    for byte in bytes.get(start.saturating_add(1)..).unwrap_or(&[]) {
        at = at.saturating_add(1);
        if *byte < 32 {
            let hint =
                "a text has no raw line break, tab or other control byte: write \\n, \\t or \\u000b";
            return BadString { at, hint };
        }
        if is_escaped {
            is_escaped = false;
            if !is_escape(*byte) {
                let hint =
                    "behind a backslash stands one of \" \\ / b f n r t u: a backslash itself is written \\\\";
                return BadString { at, hint };
            }
        } else if *byte == b'\\' {
            is_escaped = true;
        } else if *byte == b'"' {
            let hint = "behind \\u stand four hexadecimal digits, and a surrogate in a pair";
            return BadString { at: start, hint };
        }
    }
    BadString {
        at: start,
        hint: "the text that begins there is never ended by a double quote",
    }
}
