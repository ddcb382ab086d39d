// Reads decimal words from text. Bytes that are no digits divide them.
ghost use Rattle.std.specs.Prelude.{length};
ghost use Rattle.std.specs.Iterator.{at_most};

use std::slice::Iter;

// The words of the bytes that are still to be read.
// Drop alone: it is an iterator at work, and no plain data to copy or compare.
#[derive(Drop)]
pub struct Words<'a> {
    pub bytes: Iter<'a, u8>,
}

// The number with one more digit, by its last 16 bits. The codes of the digits are 48 to 57, so their last four bits
// count.
fn with_digit(value: u16, digit: u8) -> u16 {
    value.wrapping_mul(10).wrapping_add(digit as u16 % 16)
}

impl<'a> Iterator for Words<'a> {
    type Item = u16;

    ghost remaining = { λ words. at_most (length words.bytes.rest.now) };

    // The next number, by its last 16 bits.
    // No take_while over by_ref: tried, and `returns-clause-goes` stayed open, since after the loop a proof did not have
    // the bytes that are left.
    fn next(&mut self) -> Option<u16> {
        let first = self.bytes.find(|byte| byte.is_ascii_digit())?;
        let mut value = with_digit(0, *first);
        while let Some(byte) = self.bytes.next()
            && byte.is_ascii_digit()
        {
            value = with_digit(value, *byte);
        }
        Some(value)
    }
}
