// Little-endian fields of a byte slice, of every width.
ghost use Rattle.std.specs.Prelude.{◌≡◌, ℕ, ◌+◌, ◌%◌, ◌^◌, ◌≤◌, length, ltb};
ghost use Rattle.std.proofs.Common.{rules};
ghost use Rattle.fields.specs.Inside.{ValueOf};
ghost use Rattle.fields.specs.Field.{field_at, field_given, number_given, bytes_at};

use crate::refusal::{Fault, Refusal};

// Whether `size` bytes from `at` on pass the end of `len` bytes.
pub(crate) fn passes(len: usize, at: usize, size: usize) -> bool
    ensures { result ≡ ltb len (at + size) }
{
    len < size || len - size < at
}

// The number whose `width` bytes stand at `at`, lowest byte first.
fn value_at(s: &[u8], at: usize, width: usize) -> u64
    requires { (at + width ≤ length s.now) × (width ≤ 8) }
    ensures { ValueOf width s.now at result }
{
    let mut value: u64 = 0;
    for i in (0..width).rev() {
        value = value * 256 + u64::from(s[at + i]);
    }
    value
}

// An unsigned number of so many bytes.
pub trait Unsigned {
    ghost WIDTH: { ℕ };

    ghost value: { Self → ℕ };

    const WIDTH: usize;

    // The number that so many low bytes have.
    fn of_low_bytes(number: u64) -> Self
        ensures { value result ≡ number % 256 ^ WIDTH };

    ghost at_most_eight: { WIDTH ≤ 8 };
}

impl Unsigned for u16 {
    ghost WIDTH = { 2 };

    ghost value = { λ number. number };

    const WIDTH: usize = 2;

    fn of_low_bytes(number: u64) -> u16 {
        (number % 0x10000) as u16
    }

    ghost at_most_eight = { Prim.search rules };
}

impl Unsigned for u32 {
    ghost WIDTH = { 4 };

    ghost value = { λ number. number };

    const WIDTH: usize = 4;

    fn of_low_bytes(number: u64) -> u32 {
        (number % 0x100000000) as u32
    }

    ghost at_most_eight = { Prim.search rules };
}

impl Unsigned for u64 {
    ghost WIDTH = { 8 };

    ghost value = { λ number. number };

    const WIDTH: usize = 8;

    fn of_low_bytes(number: u64) -> u64 {
        number
    }

    ghost at_most_eight = { Prim.search rules };
}

// The number at `at`, lowest byte first; none where the bytes end before it does.
pub fn field_at<T: Unsigned>(s: &[u8], at: usize) -> Option<T>
    ensures { field_given T.value at result ≡ field_at T.WIDTH s.now at }
{
    if passes(s.len(), at, T::WIDTH) {
        None
    } else {
        Some(T::of_low_bytes(value_at(s, at, T::WIDTH)))
    }
}

// The number at `at`, lowest byte first; a truncated field is refused at its place.
pub fn read_at<T: Unsigned>(s: &[u8], at: usize) -> Result<T, Refusal>
    ensures { number_given T.value result ≡ field_at T.WIDTH s.now at }
{
    let Some(number) = field_at(s, at) else {
        return Err(Fault::Truncated.at(at));
    };
    Ok(number)
}

// The `size` bytes from `at` on, as a part of `s`; the empty part where they pass its end.
pub fn bytes_at(s: &[u8], at: usize, size: usize) -> &[u8]
    ensures { result.now ≡ bytes_at s.now at size }
{
    if passes(s.len(), at, size) {
        return &s[..0];
    }
    let to = at + size;
    &s[at..to]
}
