// A byte stored where there is room for it, and the digits of a number.
ghost use Rattle.std.specs.Prelude.{◌≡◌, ◌+◌, ◌≤◌, ◌<◌, set};
ghost use Rattle.std.proofs.lemmas.List.Edits.{sets};
ghost use Rattle.text.specs.Digits.{digit_of, digits_of, decimal_width};

// Stores a byte `i` places after `at`, where there is room for it.
pub(crate) fn put(text: &mut [u8], at: usize, i: usize, byte: u8)
    ensures { text.new ≡ set text.old (at + i) byte }
{
    if at < text.len() && i < text.len() - at {
        text[at + i] = byte;
    }
}

// The ASCII byte of a digit.
pub(crate) fn digit(d: u64) -> u8
    requires { d < 16 }
    ensures { result ≡ digit_of d }
{
    if d < 10 {
        (0x30 + d) as u8
    } else {
        (0x57 + d) as u8
    }
}

// How many decimal digits a number has, without leading zeros.
pub(crate) fn decimal_width(value: u64) -> usize
    ensures { result ≡ decimal_width 19 value }
{
    match value.checked_ilog10() {
        None => 1,
        Some(power) => power as usize + 1,
    }
}

// Stores the last `width` digits of a number, as far as there is room, from the last digit down.
pub(crate) fn put_digits(text: &mut [u8], at: usize, base: u64, width: usize, value: u64)
    requires { (0 < base) × (base ≤ 16) }
    ensures { text.new ≡ sets text.old at (digits_of base width value) }
{
    let mut rest = value;
    for i in (0..width).rev() {
        put(text, at, i, digit(rest % base));
        rest /= base;
    }
}
