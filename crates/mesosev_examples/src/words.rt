//! The text of the result of an example row.

use crate::outcome::Reported;
use arrayvec::ArrayString;
use itoa::Buffer;

// The capacity of the text of a result, in bytes.
const WORDS_MOST: usize = 16_384;

/// The result of an example row: parts separated by `, `.
///
/// Does not allocate, so that each allocation belongs to the call under test. A part for which
/// there is no space is left out; the printed line then says so.
#[derive(Drop)]
pub(crate) struct Words {
    text: ArrayString<WORDS_MOST>,
    // True if a part was left out because there was no space.
    is_cut: bool,
}

impl Words {
    /// Creates a text without parts.
    pub(crate) fn new() -> Words {
        Words {
            text: ArrayString::new(),
            is_cut: false,
        }
    }

    /// Returns all parts.
    pub(crate) fn as_str(&self) -> &str {
        self.text.as_str()
    }

    /// Returns the end of the printed line: ` cut off` if a part was left out, else nothing.
    pub(crate) fn ending(&self) -> &'static str {
        if self.is_cut { " cut off" } else { "" }
    }

    /// Returns whether both texts are the same, and complete.
    pub(crate) fn is_same(&self, other: &Words) -> bool {
        !self.is_cut && !other.is_cut && self.as_str() == other.as_str()
    }

    /// Appends a part.
    pub(crate) fn say(&mut self, part: &str) {
        if !self.as_str().is_empty() {
            self.add(", ");
        }
        self.add(part);
    }

    /// Appends the parts of another text.
    pub(crate) fn say_words(&mut self, words: &Words) {
        self.say(words.as_str());
        self.is_cut |= words.is_cut;
    }

    /// Appends a word and a number as a part.
    pub(crate) fn say_number(&mut self, word: &str, number: u64) {
        self.say(word);
        self.add(" ");
        self.add_number(number);
    }

    /// Appends a part that says whether an operation gave the same value.
    pub(crate) fn say_same(&mut self, done: &str, is_same: bool) {
        self.say(done);
        self.add(if is_same {
            " to the same"
        } else {
            " to another"
        });
    }

    /// Appends bytes as a part: a line feed as `\n`, a carriage return as `\r`.
    pub(crate) fn say_bytes(&mut self, bytes: &[u8]) {
        self.say("");
        self.add_bytes(bytes);
    }

    /// Appends the error of an example row, if any. Returns whether an allocation failed.
    pub(crate) fn say_answer(&mut self, answer: Result<(), Reported>) -> bool {
        match answer {
            Ok(()) => false,
            Err(Reported::NoMemory) => {
                self.say("no memory");
                true
            }
            Err(Reported::NoMemoryAfter(used)) => {
                self.say_number("no memory after", used);
                true
            }
            Err(Reported::NoMemoryIn(record)) => {
                self.say_number("no memory in record", record);
                true
            }
            Err(Reported::Fault(fault)) => {
                self.say_words(&fault);
                false
            }
        }
    }

    /// Appends the error of a step and returns `Ok`, so that the next step follows; a failed
    /// allocation is returned as an error.
    pub(crate) fn go_on(&mut self, answer: Result<(), Reported>) -> Result<(), Reported> {
        match answer {
            Err(Reported::Fault(fault)) => {
                self.say_words(&fault);
                Ok(())
            }
            other => other,
        }
    }

    /// Returns `next`, the result of the next part of an example row. If an allocation failed in
    /// the part before it, appends the error in `next` and returns `NoMemory`, so that the row is
    /// repeated.
    pub(crate) fn continue_after(
        &mut self,
        was_refused: bool,
        next: Result<(), Reported>,
    ) -> Result<(), Reported> {
        if !was_refused {
            return next;
        }
        self.go_on(next)?;
        Err(Reported::NoMemory)
    }

    /// Appends a text to the last part.
    pub(crate) fn add(&mut self, text: &str) {
        if self.text.try_push_str(text).is_err() {
            self.is_cut = true;
        }
    }

    /// Appends a space and a word to the last part.
    pub(crate) fn add_word(&mut self, word: &str) {
        self.add(" ");
        self.add(word);
    }

    /// Appends a number to the last part.
    pub(crate) fn add_number(&mut self, number: u64) {
        let mut buffer = Buffer::new();
        self.add(buffer.format(number));
    }

    /// Appends bytes to the last part, escaped as in `say_bytes`.
    pub(crate) fn add_bytes(&mut self, bytes: &[u8]) {
        for character in str::from_utf8(bytes).unwrap_or("?").chars() {
            match character {
                '\n' => self.add("\\n"),
                '\r' => self.add("\\r"),
                _ => self.add_character(character),
            }
        }
    }

    /// Appends the two hexadecimal digits of a byte to the last part.
    pub(crate) fn add_hexadecimal(&mut self, byte: u8) {
        self.add_digit(byte / 16);
        self.add_digit(byte % 16);
    }

    fn add_digit(&mut self, digit: u8) {
        self.add_character(char::from_digit(u32::from(digit), 16).unwrap_or('?'));
    }

    fn add_character(&mut self, character: char) {
        if self.text.try_push(character).is_err() {
            self.is_cut = true;
        }
    }
}
