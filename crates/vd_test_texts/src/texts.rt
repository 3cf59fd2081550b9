//! Files of texts. In front of each stands a line `@ ANSWER` or `@ ANSWER, and what the text shows`.

use std::alloc::{AllocError, Global};

/// A text, the line in front of it without the mark, and that line's number.
#[derive(Drop)]
pub struct Text {
    pub line: usize,
    head: Vec<u8>,
    pub bytes: Vec<u8>,
}

impl Text {
    /// Whether this answer stands in front of the text.
    pub fn wants(&self, answer: &[u8]) -> bool {
        match self.head.strip_prefix(answer) {
            Some([]) => true,
            Some([b, ..]) => *b == b' ',
            None => false,
        }
    }
}

/// The texts of a file. What stands in front of the first one is left out.
pub fn texts_of(alloc: Global, bytes: &[u8]) -> Result<Vec<Text>, AllocError> {
    let whole = bytes.strip_suffix(b"\n".as_slice()).unwrap_or(bytes);
    let mut texts = Vec::new(alloc);
    for (number, line) in whole.split(|b| *b == b'\n').enumerate() {
        match line.strip_prefix(b"@ ".as_slice()) {
            Some(head) => {
                let mut text = Text {
                    line: number.saturating_add(1),
                    head: Vec::new(alloc),
                    bytes: Vec::new(alloc),
                };
                text.head.extend_from_slice(head)?;
                texts.push(text)?;
            }
            None => {
                if let Some(text) = texts.last_mut() {
                    text.bytes.extend_from_slice(line)?;
                    text.bytes.push(b'\n')?;
                }
            }
        }
    }
    Ok(texts)
}
