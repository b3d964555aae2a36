// The coder's interval: how a symbol narrows it, which bits that settles and which it leaves pending (10.4.4).
ghost use Rattle.fields.specs.Limits.{largest_file};
ghost use Rattle.std.specs.Prelude.{◌≡◌, ◌+◌, ◌*◌, ◌/◌, ◌<◌, ◌≤◌, length};
ghost use Rattle.coder.specs.Bytes.{put_bits};
ghost use Rattle.coder.specs.Interval.{fresh, narrow, settle_tops, top_bits, postpones, after_symbol, WellFormed, Codable};
ghost use Rattle.coder.specs.Inside.{Room, Divisible, Holds};
ghost use Rattle.coder.specs.Together.{Agreeing, Straddling, lead_bits, postponed_by, renormalized, settled_by};

use crate::bits::{put_part, put_run, put_up};
use crate::reverse::reversed_word;

// The limits, the bits that wait for the next settled one, and the count of settled bits.
#[derive(Clone, Copy, Debug, PartialEq, Eq)]
pub struct Coder {
    pub low: u32,
    pub high: u32,
    pub pending: u64,
    pub settled: u64,
}

// A symbol's part of the frequencies: those before it, its own, and all together.
#[derive(Clone, Copy, Debug, PartialEq, Eq)]
pub struct Span {
    pub start: u32,
    pub weight: u32,
    pub total: u32,
}

// The part of an interval of size range that the frequencies up to weight take.
fn part(range: u32, weight: u32, total: u32) -> u32
    requires { Divisible range weight total }
    ensures value { result ≡ range * weight / total }
    ensures upper_bound { result ≤ range }
{
    range * weight / total
}

// How many bits of two limits agree, from the top of their 16 bits on.
fn agreeing(low: u32, high: u32) -> u32
    requires { (low ≤ 0xFFFF) × (high ≤ 0xFFFF) }
    ensures { Agreeing result low high }
{
    u32::leading_zeros(low ^ high) - 16
}

// How many bits below the top ones low has 1 and high 0 in: the leading zeros that both distances from the middle have.
fn straddling(low: u32, high: u32) -> u32
    requires { (low < 0x8000) × ((0x8000 ≤ high) × (high ≤ 0xFFFF)) }
    ensures { Straddling result low high }
{
    u32::leading_zeros((0x7FFF - low) | (high - 0x8000)) - 17
}

impl Coder {
    // The high limit of a fresh state.
    pub const HIGH_LIMIT: u32 = 0xFFFF;
    // The largest static range that is compressed.
    pub const LARGEST_RANGE: u32 = 0x3FFE;
    // The total at which frequencies are halved.
    pub const LARGEST_TOTAL: u32 = 0x1FFF;

    pub fn fresh() -> Coder
        ensures { result ≡ fresh }
    {
        Coder {
            low: 0,
            high: Coder::HIGH_LIMIT,
            pending: 0,
            settled: 0,
        }
    }

    pub(crate) fn narrowed(self, span: Span) -> Coder
        requires well_formed { WellFormed self }
        requires codable { Codable span }
        ensures { result ≡ narrow self span }
    {
        let range = self.high + 1 - self.low;
        Coder {
            low: self.low + part(range, span.start, span.total),
            high: self.low + part(range, span.start + span.weight, span.total) - 1,
            ..self
        }
    }

    // n turns that settle top bits, at once.
    fn settled_by(self, n: u32) -> Coder
        requires room { Room 16 self }
        requires low_bound { (self.low ≤ 0xFFFF) × (self.high ≤ 0xFFFF) × (n ≤ 16) }
        ensures { result ≡ settled_by n self }
    {
        if n == 0 {
            return self;
        }
        Coder {
            low: (self.low << n) % 0x10000,
            high: (self.high << n) % 0x10000 + ((1 << n) - 1),
            pending: 0,
            settled: self.settled + u64::from(n) + self.pending,
        }
    }

    fn tops_settled(self) -> Coder
        requires room { Room 16 self }
        requires low_le_high { (self.low ≤ self.high) × (self.high ≤ 0xFFFF) }
        ensures { result ≡ settle_tops 16 self }
    {
        self.settled_by(agreeing(self.low, self.high))
    }

    // n turns that postpone, at once.
    fn postponed_by(self, n: u32) -> Coder
        requires room { Room 16 self }
        requires low_bound { (self.low < 0x8000) × ((0x8000 ≤ self.high) × (self.high ≤ 0xFFFF)) }
        requires straddling { Straddling n self.low self.high }
        ensures { result ≡ postponed_by n self }
    {
        Coder {
            low: 0x8000 - ((0x8000 - self.low) << n),
            high: 0x7FFF + ((self.high - 0x7FFF) << n),
            pending: self.pending + u64::from(n),
            ..self
        }
    }

    fn all_postponed(self) -> Coder
        requires room { Room 16 self }
        requires low_bound { (self.low < 0x8000) × ((0x8000 ≤ self.high) × (self.high ≤ 0xFFFF)) }
        ensures { result ≡ postpones 16 self }
    {
        self.postponed_by(straddling(self.low, self.high))
    }

    // The state once the top bits that agree are settled and those that straddle the middle are postponed. An interval of more than half
    // the whole has neither.
    fn renormalized(self) -> Coder
        requires room { Room 32 self }
        requires low_le_high { (self.low ≤ self.high) × (self.high ≤ 0xFFFF) }
        ensures { result ≡ renormalized self }
    {
        if self.high - self.low >= 0x8000 {
            return self;
        }
        self.tops_settled().all_postponed()
    }

    // The state after a symbol.
    pub(crate) fn after(self, span: Span) -> Coder
        requires well_formed { WellFormed self }
        requires room { Room 32 self }
        requires codable { Codable span }
        ensures { result ≡ after_symbol self span }
    {
        self.narrowed(span).renormalized()
    }

    // Puts the n top bits of low, the pending ones inverted after the first of them.
    pub(crate) fn put_tops(self, n: u32, buf: &mut [u8])
        requires low_bound { (self.low ≤ 0xFFFF) × (n ≤ 16) }
        requires buf_len_bound { (length buf.old ≤ largest_file) × (self.settled + n + self.pending ≤ 8 * length buf.old) }
        ensures { buf.new ≡ put_bits buf.old self.settled (lead_bits n self) }
    {
        if n == 0 {
            return;
        }
        let top = self.low / 0x8000;
        let after = self.settled + 1 + self.pending;
        put_part(&mut *buf, self.settled, 1, top);
        put_run(&mut *buf, self.settled + 1, 1 - top, self.pending);
        put_up(
            &mut *buf,
            after,
            u64::from(n) - 1,
            reversed_word(self.low) / 2,
        );
    }

    // As renormalized; the bits that settle are put.
    pub(crate) fn put_renormalized(self, buf: &mut [u8]) -> Coder
        requires low_le_high { (self.low ≤ self.high) × (self.high ≤ 0xFFFF) }
        requires holds { Holds buf.old (renormalized self) }
        ensures value { result ≡ renormalized self }
        ensures buf_after { buf.new ≡ put_bits buf.old self.settled (top_bits 16 self) }
    {
        let n = agreeing(self.low, self.high);
        self.put_tops(n, buf);
        self.settled_by(n).all_postponed()
    }
}
