use std::alloc::{AllocError, Global};

/// A text in which the control characters are written by their pictures.
pub(crate) fn with_controls(alloc: Global, text: &str) -> Result<String, AllocError> {
    let text = text.replace(alloc, '␊', "\n")?;
    let text = text.replace(alloc, '␍', "\r")?;
    text.replace(alloc, '␉', "\t")
}
