// The coder's writer: it judges what it is lent, settles the bits of a number and stores them, or changes nothing.
ghost use Rattle.fields.specs.Limits.{largest_file};
ghost use Rattle.std.specs.Prelude.{◌≡◌, ◌+◌, ◌*◌, ◌^◌, ◌<◌, ◌≤◌, ◌||◌, ◌∷◌};
ghost use Rattle.coder.specs.Bytes.{put_bits};
ghost use Rattle.coder.specs.Forms.{fault_given, fits, limits_formed};
ghost use Rattle.coder.specs.Inside.{Holds, Room, write_room};
ghost use Rattle.coder.specs.Interval.{Codable, WellFormed};
ghost use Rattle.coder.specs.Symbols.{after_symbols, byte_span, plain_spans, static_span, static_spans, symbols_bits};
ghost use Rattle.coder.specs.Writing.{NamesWidth, bytes_in, fresh_writer, write_fault, write_plain, write_static, written_given};

use crate::bits::pad;
use crate::interval::{Coder, Span};
use crate::reverse::reversed_byte;
use fields::limits::LARGEST_FILE;
use fields::refusal::Fault;

// The bytes of a plain U32.
pub(crate) const U32_BYTES: u32 = 4;

// The most bits that a symbol and a plain U32 after it add to the settled and the pending ones.
const MOST_BITS: u64 = 160;

// A writer's state, and whether a compressed value was written.
#[derive(Clone, Copy, Debug, PartialEq, Eq)]
pub struct Writer {
    pub coder: Coder,
    pub compressed: bool,
}

// Plain values by their width.
#[derive(Clone, Copy, Debug, PartialEq, Eq)]
pub enum Width {
    U8,
    U16,
    U32,
}

impl TryFrom<u32> for Width {
    type Error = Fault;

    ghost try_from_gives = { NamesWidth };

    // The width of so many bytes; 10 where there is none.
    fn try_from(bytes: u32) -> Result<Width, Fault> {
        match bytes {
            1 => Ok(Width::U8),
            2 => Ok(Width::U16),
            4 => Ok(Width::U32),
            _ => Err(Fault::OutOfRange),
        }
    }
}

impl Width {
    // The largest plain value.
    fn largest(self) -> u32
        ensures { result + 1 ≡ 256 ^ bytes_in self }
    {
        match self {
            Width::U8 => 0xFF,
            Width::U16 => 0xFFFF,
            Width::U32 => 0xFFFFFFFF,
        }
    }

    // The bytes of a plain value.
    pub(crate) fn bytes(self) -> u32
        ensures { (result ≡ bytes_in self) × (1 ≤ result) × (result ≤ 4) }
    {
        match self {
            Width::U8 => 1,
            Width::U16 => 2,
            Width::U32 => U32_BYTES,
        }
    }
}

// A value in a static range.
pub(crate) fn static_span(range: u32, value: u32) -> Span
    ensures { result ≡ static_span range value }
{
    Span {
        start: value,
        weight: 1,
        total: range,
    }
}

// The low byte of a plain value.
pub(crate) fn byte_span(value: u32) -> Span
    ensures { result ≡ byte_span value }
{
    static_span(256, reversed_byte(value % 256))
}

// A value's first symbol, and the plain bytes after it: so many low bytes of the rest.
#[derive(Clone, Copy, Debug, PartialEq, Eq)]
struct Lead {
    span: Span,
    rest: u32,
    count: u32,
}

// A value in a static range: one symbol, or a plain U32 where the range is too large.
fn static_lead(range: u32, value: u32) -> Lead
    ensures rest_value { result.span ∷ plain_spans result.count result.rest ≡ static_spans range value }
    ensures codable { (value < range → Codable result.span) × (result.count ≤ 4) }
{
    if range <= Coder::LARGEST_RANGE {
        Lead {
            span: static_span(range, value),
            rest: 0,
            count: 0,
        }
    } else {
        Lead {
            span: byte_span(value),
            rest: value / 256,
            count: 3,
        }
    }
}

impl Coder {
    #[tactic(auto, unfolding(crate::specs::Forms::limits_formed))]
    pub(crate) fn well_formed(self) -> bool
        ensures { result ≡ limits_formed self }
    {
        self.low < 0x8000
            && 0x8000 <= self.high
            && self.high <= Coder::HIGH_LIMIT
            && self.low / 0x4000 + 2 <= self.high / 0x4000
    }

    // The state after the count low bytes of a plain value.
    fn after_plain(self, value: u32, count: u32) -> Coder
        requires well_formed { WellFormed self }
        requires room { Room (32 * count) self }
        ensures { result ≡ after_symbols self (plain_spans count value) }
    {
        let mut s = self;
        let mut rest = value;
        for _ in 0..count {
            s = s.after(byte_span(rest));
            rest /= 256;
        }
        s
    }

    // Puts the bits of a symbol and of the count low bytes of a plain value; the state after them.
    fn put_led(self, span: Span, value: u32, count: u32, buf: &mut [u8]) -> Coder
        requires well_formed { WellFormed self × Codable span × (count ≤ 4) }
        requires holds { Holds buf.old (after_symbols self (span ∷ plain_spans count value)) }
        ensures value { result ≡ after_symbols self (span ∷ plain_spans count value) }
        ensures buf_after { buf.new ≡ put_bits buf.old self.settled (symbols_bits self (span ∷ plain_spans count value)) }
    {
        let mut s = self.narrowed(span);
        let mut rest = value;
        let mut left = count;
        // Kept: tried, misses a speed bar. With a for over the bytes plain values are written a quarter slower.
        loop {
            s = s.put_renormalized(&mut *buf);
            if left == 0 {
                return s;
            }
            s = s.narrowed(byte_span(rest));
            rest /= 256;
            left -= 1;
        }
    }

    // Whether a buffer of len bytes holds the settled and the pending bits.
    pub(crate) fn has_room(self, len: usize) -> bool
        requires { len ≤ largest_file }
        ensures { result ≡ fits self len }
    {
        let bits = 8 * len as u64;
        self.settled <= bits && self.pending <= bits - self.settled
    }

    // Whether a buffer of len bytes has room for the bits of a symbol and of the count low bytes of a plain value. Each symbol adds 32 at
    // most, so that the state after them is seldom looked for.
    fn has_room_led(self, span: Span, value: u32, count: u32, len: usize) -> bool
        requires well_formed { WellFormed self × Codable span × (count ≤ 4) }
        requires len_le_largest_file { (len ≤ largest_file) × (self.settled + self.pending ≤ 8 * len) }
        ensures { result ≡ fits (after_symbols self (span ∷ plain_spans count value)) len }
    {
        self.settled + self.pending + MOST_BITS <= 8 * len as u64
            || self.after(span).after_plain(value, count).has_room(len)
    }

    // Refused for a buffer of len bytes, or for the state.
    #[tactic(auto, unfolding(crate::specs::Writing::write_fault, crate::specs::Forms::writer_formed))]
    pub(crate) fn write_fault(self, len: usize) -> Result<(), Fault>
        ensures { fault_given result ≡ write_fault self len }
    {
        if len > LARGEST_FILE {
            return Err(Fault::OverLimit);
        }
        if self.well_formed() && self.has_room(len) {
            Ok(())
        } else {
            Err(Fault::BadState)
        }
    }
}

impl Writer {
    pub fn fresh() -> Writer
        ensures { result ≡ fresh_writer }
    {
        Writer {
            coder: Coder::fresh(),
            compressed: false,
        }
    }

    // Writes a symbol, and after it the count low bytes of a plain value, where there is room for them.
    pub(crate) fn write_led(
        self,
        buf: &mut [u8],
        compresses: bool,
        span: Span,
        rest: u32,
        count: u32,
    ) -> Result<Writer, Fault>
        requires well_formed { WellFormed self.coder }
        requires codable { Codable span × (count ≤ 4) }
        requires holds { Holds buf.old self.coder }
        ensures { written_given self result buf.new ≡ write_room buf.old self compresses (span ∷ plain_spans count rest) }
    {
        let start = self.coder;
        if !start.has_room_led(span, rest, count, buf.len()) {
            return Err(Fault::NoRoom);
        }
        pad(&mut *buf, start.settled);
        let next = start.put_led(span, rest, count, &mut *buf);
        Ok(Writer {
            coder: next,
            compressed: self.compressed || compresses,
        })
    }

    // Writes a value in a static range: one symbol, or a plain U32 where the range is too large.
    pub fn write_static(self, buf: &mut [u8], range: u32, value: u32) -> Result<Writer, Fault>
        ensures { written_given self result buf.new ≡ write_static range buf.old self value }
    {
        self.coder.write_fault(buf.len())?;
        if range <= value {
            return Err(Fault::OutOfRange);
        }
        let lead = static_lead(range, value);
        self.write_led(buf, true, lead.span, lead.rest, lead.count)
    }

    // Writes a plain value of one, two or four bytes.
    pub fn write_plain(self, buf: &mut [u8], width: Width, value: u32) -> Result<Writer, Fault>
        ensures { written_given self result buf.new ≡ write_plain (bytes_in width) buf.old self value }
    {
        self.coder.write_fault(buf.len())?;
        if width.largest() < value {
            return Err(Fault::OutOfRange);
        }
        let more = width.bytes() - 1;
        self.write_led(buf, false, byte_span(value), value / 256, more)
    }
}
