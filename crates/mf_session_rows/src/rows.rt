//! Rows of requests and replies.
use std::alloc::{AllocError, Global};

/// The lines of a block that stand behind a mark, each with its line feed.
pub fn lines_behind(alloc: Global, block: &str, mark: &str) -> Result<String, AllocError> {
    let mut text = String::new(alloc);
    for line in block.lines() {
        if let Some(line) = line.strip_prefix(mark) {
            text.push_str(line)?;
            text.push('\n')?;
        }
    }
    Ok(text)
}
