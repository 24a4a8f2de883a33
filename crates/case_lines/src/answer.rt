use itoa::{Buffer, Integer};
use std::alloc::Global;
use std::fmt::Display;

/// What an input is answered, put together piece by piece.
///
/// A piece that can't be put, as an allocation was refused or there is no such thing, fails the answer as a whole, so that who
/// puts pieces need not look after each.
#[derive(Drop)]
pub struct Answer {
    bytes: Vec<u8>,
    has_failed: bool,
}

impl Answer {
    /// The empty answer. Takes no memory.
    pub fn new(alloc: Global) -> Answer {
        Answer {
            bytes: Vec::new(alloc),
            has_failed: false,
        }
    }

    /// What was put. None where the answer has failed.
    pub fn whole(&self) -> Option<&[u8]> {
        if self.has_failed {
            None
        } else {
            Some(&self.bytes)
        }
    }

    /// Whether nothing was put yet.
    pub fn is_empty(&self) -> bool {
        self.bytes.is_empty()
    }

    /// Nothing can be answered.
    pub fn fail(&mut self) {
        self.has_failed = true;
    }

    /// Puts bytes.
    pub fn bytes(&mut self, bytes: &[u8]) {
        if self.bytes.extend_from_slice(bytes).is_err() {
            self.fail();
        }
    }

    /// Puts a byte.
    pub fn byte(&mut self, byte: u8) {
        self.bytes(&[byte]);
    }

    /// Puts a text.
    pub fn text(&mut self, text: &str) {
        self.bytes(text.as_bytes());
    }

    /// Puts a number in decimal.
    pub fn number<I: Integer>(&mut self, number: I) {
        let mut buffer = Buffer::new();
        self.text(buffer.format(number));
    }

    /// Puts what a value says of itself.
    pub fn shown<D: Display>(&mut self, alloc: Global, value: &D) {
        match value.to_string(alloc) {
            Ok(text) => self.text(text.as_str()),
            Err(_) => self.fail(),
        }
    }
}
