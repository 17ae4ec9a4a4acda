//! The words of a call.

use std::alloc::Global;

/// The words of a text.
pub(crate) fn words(alloc: Global, text: &str) -> Option<Vec<String>> {
    let mut words = Vec::new(alloc);
    for word in text.split_whitespace() {
        words.push(String::from_str(alloc, word).ok()?).ok()?;
    }
    Some(words)
}
