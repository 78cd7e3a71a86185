// Input as it can be shown to a person.
use std::alloc::{AllocError, Global};

// Whether a text has characters that steer a terminal in place of being seen, as a carriage return.
fn has_controls(text: &str) -> bool {
    for sign in text.chars() {
        if sign.is_control() {
            return true;
        }
    }
    false
}

// A line of input: as it is, or byte by byte in escapes where it is no text or has control characters.
pub(crate) fn shown(heap: Global, line: &[u8]) -> Result<String, AllocError> {
    match std::str::from_utf8(line) {
        Ok(text) if !has_controls(text) => String::from_str(heap, text),
        _ => {
            let bytes = line.escape_ascii();
            format!(in heap; "{bytes}")
        }
    }
}
