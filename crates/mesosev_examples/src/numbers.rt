//! Example rows that read decimal numbers into thousandths and write them again.

use crate::outcome::Reported;
use crate::words::Words;
use arrayvec::ArrayString;
use mes_model_schema::fixed::{NumFault, Thousandths};

/// Reads numbers, and prints each in thousandths and as it is written, or the error in its text.
pub(crate) fn report_numbers(texts: &str, words: &mut Words) -> Result<(), Reported> {
    for text in texts.split(' ') {
        report_number(text, words);
    }
    Ok(())
}

fn report_number(text: &str, words: &mut Words) {
    match Thousandths::read(text.as_bytes()) {
        Ok(number) => {
            let mut written = ArrayString::new();
            number.write(&mut written);
            words.say_number("units", number.units());
            words.add_word(written.as_str());
        }
        Err(NumFault::TooLong) => words.say("TooLong"),
        Err(NumFault::Shape) => words.say("Shape"),
        Err(NumFault::Range) => words.say("Range"),
    }
}
