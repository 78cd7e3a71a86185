// What is answered to a line of input.
use crate::conversation::Obey;
use crate::shown::shown;
use crate::trouble::Trouble;
use crate::usage::Usage;
use sheet::SheetRefusal;
use std::alloc::{AllocError, Global};

// The line that says why a sheet is refused, and where.
fn refusal_line(heap: Global, refused: SheetRefusal) -> Result<String, AllocError> {
    let SheetRefusal {
        refusal,
        record,
        byte,
    } = refused;
    let reason = refusal.reason;
    let number = reason.number();
    let layer = refusal.layer;
    let place = refusal.place;
    format!(in heap;
        "refused {number} {layer} place {place} record {record} byte {byte}: {reason}\n"
    )
}

// The answer to a line whose command has none of its own.
fn told(heap: Global, line: &[u8], trouble: Trouble) -> Result<String, AllocError> {
    match trouble {
        Trouble::Usage(usage) => {
            let shown = shown(heap, line)?;
            format!(in heap; "unknown: {shown}: {usage}\n")
        }
        Trouble::Refused(refusal) => format!(in heap; "{refusal}\n"),
        Trouble::Sheet(refusal) => refusal_line(heap, refusal),
        Trouble::Memory => Err(AllocError),
    }
}

// What the words of a line answer. A blank line has none, and gets no answer.
fn obey_line<S: Obey>(session: &mut S, heap: Global, line: &[u8]) -> Result<String, Trouble> {
    let Ok(text) = std::str::from_utf8(line) else {
        return Err(Trouble::Usage(Usage::Text));
    };
    let words: Vec<&str> = text.split_ascii_whitespace().collect(heap)?;
    match words.as_slice() {
        [name, words @ ..] => session.obey(name, words),
        [] => Ok(String::new(heap)),
    }
}

// The answer to one line of input, whatever bytes it holds. A comment gets none.
pub(crate) fn answer<S: Obey>(
    session: &mut S,
    heap: Global,
    line: &[u8],
) -> Result<String, AllocError> {
    let line = line.trim_ascii();
    if line.starts_with(b"#") {
        return Ok(String::new(heap));
    }
    match obey_line(session, heap, line) {
        Ok(answer) => Ok(answer),
        Err(trouble) => told(heap, line, trouble),
    }
}
