// Names as they are shown: one line, and no two names alike.
use std::alloc::{AllocError, Global};
use std::fmt::Write;

/// Characters that are not shown as they are: controls, and those that move or hide the text around them.
static HIDDEN: [(char, char); 6] = [
    ('\u{0}', '\u{1f}'),
    ('\u{7f}', '\u{9f}'),
    ('\u{200b}', '\u{200f}'),
    ('\u{2028}', '\u{202e}'),
    ('\u{2060}', '\u{206f}'),
    ('\u{feff}', '\u{feff}'),
];

fn is_hidden(c: char) -> bool {
    HIDDEN.iter().any(|(first, last)| *first <= c && c <= *last)
}

/// Adds a name's character to a text.
fn push_char(text: &mut String, c: char) -> Result<(), AllocError> {
    if matches!(c, '.' | '\\' | '"') {
        text.push('\\')?;
        return text.push(c);
    }
    if is_hidden(c) {
        let code = c as u32;
        return write!(text, "\\u{{{code:x}}}");
    }
    text.push(c)
}

/// Adds a name to a text; an empty one is shown as two quotes.
pub(crate) fn push_name(heap: Global, text: &mut String, name: &[u8]) -> Result<(), AllocError> {
    if name.is_empty() {
        return text.push_str("\"\"");
    }
    let name = String::from_utf8_lossy(heap, name)?;
    for c in name.as_str().chars() {
        push_char(text, c)?;
    }
    Ok(())
}
