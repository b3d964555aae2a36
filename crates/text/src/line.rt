// Fields of a line of text. Each is stored as far as there is room for it, and its whole length is answered.
ghost use Rattle.std.specs.Prelude.{◌≡◌, length};
ghost use Rattle.std.proofs.lemmas.List.Edits.{sets};
ghost use Rattle.text.specs.Digits.{decimal_field, hex_field};

use crate::digits::{decimal_width, put, put_digits};

// Stores `word` in `text` from `at` on, as far as there is room, and answers its length.
pub fn put_word(text: &mut [u8], at: usize, word: &[u8]) -> usize
    ensures value { result ≡ length word.now }
    ensures text_after { text.new ≡ sets text.old at word.now }
{
    for i in 0..word.len() {
        put(text, at, i, word[i]);
    }
    word.len()
}

// Stores a decimal and the byte that ends it, as far as there is room, and answers their length.
pub fn put_decimal(text: &mut [u8], at: usize, value: u64, end: u8) -> usize
    ensures value { result ≡ length (decimal_field value end) }
    ensures text_after { text.new ≡ sets text.old at (decimal_field value end) }
{
    let width = decimal_width(value);
    put_digits(text, at, 10, width, value);
    put(text, at, width, end);
    width + 1
}

// Stores eight hexadecimal digits, lower case, and the byte that ends them, as far as there is room, and answers their length.
pub fn put_hex(text: &mut [u8], at: usize, value: u32, end: u8) -> usize
    ensures value { result ≡ length (hex_field value end) }
    ensures text_after { text.new ≡ sets text.old at (hex_field value end) }
{
    put_digits(text, at, 16, 8, u64::from(value));
    put(text, at, 8, end);
    9
}
