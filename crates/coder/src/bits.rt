// Bits in bytes: they fill each byte from its lowest.
ghost use Rattle.fields.specs.Limits.{largest_file};
ghost use Rattle.std.specs.Prelude.{◌≡◌, ◌+◌, ◌-◌, ◌*◌, ◌/◌, ◌%◌, ◌^◌, ◌<◌, ◌≤◌, length, replicate, slice_index};
ghost use Rattle.coder.specs.Bytes.{bit_at, put_bits, padded};
ghost use Rattle.coder.specs.Inside.{three_at};
ghost use Rattle.coder.specs.Stream.{word};
ghost use Rattle.coder.specs.Together.{bits_up};

use crate::reverse::reversed_word;

// The value of the bit at a place.
fn power(place: u32) -> u32
    requires { place < 16 }
    ensures value { result ≡ 2 ^ place }
    ensures lower_bound { (1 ≤ result) × (result ≤ 0x8000) }
{
    1 << place
}

// The bit of a number at a place.
fn bit_of(value: u32, place: u32) -> u32
    requires { place < 16 }
    ensures { result ≡ value / 2 ^ place % 2 }
{
    value / power(place) % 2
}

// The byte at a place, 0 past the end.
fn byte_at(bytes: &[u8], i: u64) -> u32
    ensures { result ≡ slice_index bytes.now i }
{
    if i < bytes.len() as u64 {
        u32::from(bytes[i as usize])
    } else {
        0
    }
}

// The bit at a place, 0 past the end.
pub(crate) fn bit_at(bytes: &[u8], at: u64) -> u32
    ensures { result ≡ bit_at bytes.now at }
{
    bit_of(byte_at(bytes, at / 8), (at % 8) as u32)
}

// The number that three bytes from a place make, the first of them the lowest; one test where they are all there.
fn three_at(bytes: &[u8], i: u64) -> u32
    requires { i < 2 ^ 32 }
    ensures value { result ≡ three_at bytes.now i }
    ensures upper_bound { result < 0x1000000 }
{
    if i + 2 < bytes.len() as u64 {
        let j = i as usize;
        return u32::from(bytes[j])
            + 0x100 * u32::from(bytes[j + 1])
            + 0x10000 * u32::from(bytes[j + 2]);
    }
    byte_at(bytes, i) + 0x100 * byte_at(bytes, i + 1) + 0x10000 * byte_at(bytes, i + 2)
}

// The number that fifteen bits from a place make, the first of them the highest.
pub(crate) fn word_at(bytes: &[u8], from: u64) -> u32
    requires { from < 2 ^ 34 }
    ensures { result ≡ word (bit_at bytes.now) from 15 }
{
    let three = three_at(bytes, from / 8);
    reversed_word(three / power((from % 8) as u32) % 0x8000 * 2)
}

// The byte with bits from a place on, and those above them 0.
fn with_bits(byte: u8, place: u32, count: u32, value: u32) -> u8
    requires { (place + count ≤ 8) × (value < 2 ^ count) }
    ensures { result ≡ byte % 2 ^ place + value * 2 ^ place }
{
    ((u32::from(byte) & ((1 << place) - 1)) + (value << place)) as u8
}

// Puts bits that stay within the byte of the place, the lowest of the number first.
pub(crate) fn put_part(buf: &mut [u8], at: u64, count: u32, value: u32)
    requires { (at < 8 * length buf.old) × (1 ≤ count) × (at % 8 + count ≤ 8) × (value < 2 ^ count) }
    ensures { buf.new ≡ put_bits buf.old at (bits_up count value) }
{
    let i = (at / 8) as usize;
    buf[i] = with_bits(buf[i], (at % 8) as u32, count, value);
}

// How many of the bits that are left the byte of the place takes.
fn taken(at: u64, left: u64) -> u32
    requires { 1 ≤ left }
    ensures { (1 ≤ result) × (result ≤ left) × (at % 8 + result ≤ 8) }
{
    let room = 8 - (at % 8) as u32;
    if left < u64::from(room) {
        left as u32
    } else {
        room
    }
}

// The n low bits of a number.
fn low_bits(value: u32, n: u32) -> u32
    requires { n ≤ 8 }
    ensures { (result ≡ value % 2 ^ n) × (result < 2 ^ n) }
{
    value & ((1 << n) - 1)
}

// A number without its n low bits.
fn high_bits(value: u32, n: u32) -> u32
    requires { n ≤ 8 }
    ensures { result ≡ value / 2 ^ n }
{
    value >> n
}

// Puts the count low bits of a number from a place on, the lowest first.
pub(crate) fn put_up(buf: &mut [u8], from: u64, count: u64, value: u32)
    requires { (length buf.old ≤ largest_file) × (from + count ≤ 8 * length buf.old) }
    ensures { buf.new ≡ put_bits buf.old from (bits_up count value) }
{
    let mut at = from;
    let mut left = count;
    let mut rest = value;
    // Kept: no range counts these turns, since each takes as many bits as the byte of its place has room for.
    while 0 < left {
        let n = taken(at, left);
        put_part(&mut *buf, at, n, low_bits(rest, n));
        at += u64::from(n);
        left -= u64::from(n);
        rest = high_bits(rest, n);
    }
}

// So many ones, or zeros.
fn equal_bits(bit: u32, count: u32) -> u32
    requires { (bit ≤ 1) × (count < 32) }
    ensures { (result ≡ bit * (2 ^ count - 1)) × (result < 2 ^ count) }
{
    bit * ((1 << count) - 1)
}

// Puts a run of equal bits that a number holds.
fn put_short(buf: &mut [u8], from: u64, bit: u32, count: u64)
    requires { (length buf.old ≤ largest_file) × (from + count ≤ 8 * length buf.old) × (bit ≤ 1) × (count < 32) }
    ensures { buf.new ≡ put_bits buf.old from (replicate count bit) }
{
    put_up(buf, from, count, equal_bits(bit, count as u32));
}

// Makes all bits of the bytes from one up to another equal.
fn fill(buf: &mut [u8], from: usize, end: usize, bit: u32)
    requires { (from ≤ end) × (end ≤ length buf.old) × (bit ≤ 1) }
    ensures { buf.new ≡ put_bits buf.old (8 * from) (replicate (8 * (end - from)) bit) }
{
    let byte = equal_bits(bit, 8) as u8;
    buf[from..end].fill(byte);
}

// Puts a run that reaches the end of its first byte: the whole bytes in its middle are filled.
fn put_long(buf: &mut [u8], from: u64, bit: u32, count: u64)
    requires { (length buf.old ≤ largest_file) × (from + count ≤ 8 * length buf.old) × (bit ≤ 1) × (8 ≤ count) }
    ensures { buf.new ≡ put_bits buf.old from (replicate count bit) }
{
    let head = 8 - from % 8;
    let first = (from + head) / 8;
    let end = (from + count) / 8;
    put_short(&mut *buf, from, bit, head);
    fill(&mut *buf, first as usize, end as usize, bit);
    put_short(&mut *buf, 8 * end, bit, (from + count) % 8);
}

// From so many bits on a run is put by whole bytes.
const LONG: u64 = 32;

// Puts count equal bits from a place on.
pub(crate) fn put_run(buf: &mut [u8], from: u64, bit: u32, count: u64)
    requires { (length buf.old ≤ largest_file) × (from + count ≤ 8 * length buf.old) × (bit ≤ 1) }
    ensures { buf.new ≡ put_bits buf.old from (replicate count bit) }
{
    if count < LONG {
        put_short(buf, from, bit, count);
    } else {
        put_long(buf, from, bit, count);
    }
}

// Makes the bits from a place on 0 in its byte, where the place is inside a byte.
pub(crate) fn pad(buf: &mut [u8], at: u64)
    requires { at ≤ 8 * length buf.old }
    ensures { buf.new ≡ padded buf.old at }
{
    if at % 8 != 0 {
        put_part(buf, at, 1, 0);
    }
}
