//! Answers as text.

use crate::refusal::{OUT_OF_MEMORY, Refusal};
use std::alloc::Global;

/// What is written for a call.
///
/// A request for memory that is refused is remembered until the end.
#[derive(Drop)]
pub struct Answer {
    alloc: Global,
    text: String,
    is_cut: bool,
}

impl Answer {
    /// Nothing yet.
    pub fn new(alloc: Global) -> Self {
        Answer {
            alloc,
            text: String::new(alloc),
            is_cut: false,
        }
    }

    /// The text.
    pub fn as_str(&self) -> &str {
        self.text.as_str()
    }

    /// Ends the answer, which is `ok` where the call has nothing to tell.
    pub fn end(&mut self) -> Result<(), Refusal> {
        if self.text.is_empty() {
            self.text("ok");
        }
        self.whole()
    }

    /// Refused with `OutOfMemory` where a part of it could not be written.
    pub fn whole(&self) -> Result<(), Refusal> {
        if self.is_cut {
            Err(OUT_OF_MEMORY)
        } else {
            Ok(())
        }
    }

    /// Writes a text.
    pub fn text(&mut self, text: &str) {
        self.is_cut |= self.text.push_str(text).is_err();
    }

    /// Writes the answer to a question.
    pub fn yes_or_no(&mut self, is_so: bool) {
        self.text(if is_so { "yes" } else { "no" });
    }

    /// Writes a number in decimal digits.
    pub fn number(&mut self, number: u64) {
        match format!(in self.alloc; "{number}") {
            Ok(digits) => self.text(digits.as_str()),
            Err(_) => self.is_cut = true,
        }
    }

    /// Writes bytes in hexadecimal digits.
    pub fn bytes(&mut self, bytes: &[u8]) {
        match hex::encode(self.alloc, bytes) {
            Ok(digits) => self.text(digits.as_str()),
            Err(_) => self.is_cut = true,
        }
    }

    /// Writes what stands between two items of a list, unless the next one is its first.
    pub fn separator(&mut self, text: &str, is_first: bool) {
        if !is_first {
            self.text(text);
        }
    }

    /// Writes a dash for a list without items.
    pub fn none_if(&mut self, is_empty: bool) {
        if is_empty {
            self.text("-");
        }
    }
}
