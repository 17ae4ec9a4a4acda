//! The line that a case prints, and what the calls read of a case's words.
use ip_prefix::{Family, Nlri, ShortText, parse_number};
use std::alloc::Global;
use std::fmt::Debug;

// The line of a case. Where there is no memory for a piece of it, it has failed, and isn't printed.
#[derive(Drop)]
pub(crate) struct Line {
    pub(crate) alloc: Global,
    text: String,
    has_failed: bool,
}

impl Line {
    pub(crate) fn new(alloc: Global) -> Line {
        Line {
            alloc,
            text: String::new(alloc),
            has_failed: false,
        }
    }

    // The text, or none where the line has failed.
    pub(crate) fn text(&self) -> Option<&str> {
        if self.has_failed {
            None
        } else {
            Some(self.text.as_str())
        }
    }

    pub(crate) fn fail(&mut self) {
        self.has_failed = true;
    }

    pub(crate) fn put(&mut self, text: &str) {
        if self.text.push_str(text).is_err() {
            self.fail();
        }
    }

    // A text, and after it a value.
    pub(crate) fn show<D: Debug>(&mut self, text: &str, value: &D) {
        self.put(text);
        if write!(self.text, "{value:?}").is_err() {
            self.fail();
        }
    }

    // Bytes that are a text; where they are no UTF-8, nothing.
    pub(crate) fn put_text(&mut self, bytes: &[u8]) {
        self.put(str::from_utf8(bytes).unwrap_or(""));
    }

    // The text of an address, a prefix, a peer or a view.
    pub(crate) fn put_short(&mut self, text: &ShortText) {
        self.put_text(text.as_slice());
    }

    // Bytes in hexadecimal.
    pub(crate) fn put_hex(&mut self, bytes: &[u8]) {
        match hex::encode(self.alloc, bytes) {
            Ok(text) => self.put(text.as_str()),
            Err(_) => self.fail(),
        }
    }

    // A prefix, with `#` before its path identifier.
    pub(crate) fn put_nlri(&mut self, nlri: &Nlri) {
        self.put_short(&nlri.prefix.text());
        if let Some(id) = nlri.id {
            self.show("#", &id);
        }
    }

    // Whether something is so; `-` where it is neither.
    pub(crate) fn put_truth(&mut self, truth: Option<bool>) {
        match truth {
            Some(true) => self.put("true"),
            Some(false) => self.put("false"),
            None => self.put("-"),
        }
    }
}

// The word at a place, counted from that of the call; where there is none, an empty one.
pub(crate) fn at<'a>(words: &[&'a str], place: usize) -> &'a str {
    match words.get(place) {
        Some(word) => *word,
        None => "",
    }
}

// The words after so many others.
pub(crate) fn behind<'a>(words: &'a [&'a str], count: usize) -> &'a [&'a str] {
    let (_, behind) = words.split_at(count.min(words.len()));
    behind
}

// The number that a word is; of any other word 0.
pub(crate) fn number_of(word: &str) -> u32 {
    parse_number(word.as_bytes()).unwrap_or(0)
}

pub(crate) fn number_at(words: &[&str], place: usize) -> u32 {
    number_of(at(words, place))
}

// The octet that a word is; of any other word 0.
pub(crate) fn octet_at(words: &[&str], place: usize) -> u8 {
    at(words, place).parse::<u8>().unwrap_or(0)
}

// The family that a word names: `6`, or IPv4.
pub(crate) fn family_at(words: &[&str], place: usize) -> Family {
    if at(words, place) == "6" {
        Family::V6
    } else {
        Family::V4
    }
}
