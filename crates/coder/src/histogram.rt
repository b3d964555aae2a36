// The frequencies of a dynamic context: the escape symbol's first, then those of the values 0 to 255 (10.4.3, 10.4.9).
ghost use Rattle.std.specs.Prelude.{◌≡◌, ◌+◌, ◌*◌, ◌%◌, ◌^◌, ◌<◌, ◌≤◌, map, length, take};
ghost use Rattle.coder.specs.Histogram.{fresh_histogram, sum, symbol_at, halve, thinned, raised, span_of, histogram_formed, Totalled, symbols, values};
ghost use Rattle.coder.specs.Values.{symbol_after};

use crate::interval::{Coder, Span};

// The escape symbol and one for each value.
pub const SYMBOLS: usize = 257;

// The values that a dynamic context takes.
pub const VALUES: u32 = 256;

// A fresh context: escape has frequency 1, all else 0.
pub fn fresh_histogram() -> [u32; SYMBOLS]
    ensures { result ≡ fresh_histogram }
{
    let mut h = [0u32; SYMBOLS];
    h[0] = 1;
    h
}

// The sum of the first count frequencies.
fn sum_before(h: &[u32; SYMBOLS], count: usize) -> u64
    requires { (count ≤ symbols) }
    ensures { result ≡ sum (take count h.now) }
{
    let mut total: u64 = 0;
    for i in 0..count {
        total += u64::from(h[i]);
    }
    total
}

// All frequencies, their bits put together, and their sum in 32 bits.
#[derive(Clone, Copy)]
struct Sums {
    bits: u32,
    low: u32,
}

// The bits and the sum in one pass over narrow numbers.
fn sums_of(h: &[u32; SYMBOLS]) -> Sums
    ensures { (result.low ≡ sum h.now % 2 ^ 32) × (sum h.now ≤ symbols * result.bits) }
{
    let mut bits: u32 = 0;
    let mut low: u32 = 0;
    for &frequency in h {
        bits |= frequency;
        low = low.wrapping_add(frequency);
    }
    Sums { bits, low }
}

// Frequencies below this have a sum below 2^32.
const NARROW: u32 = 0x800000;

// The sum of all frequencies.
pub(crate) fn total_of(h: &[u32; SYMBOLS]) -> u64
    ensures { result ≡ sum h.now }
{
    let sums = sums_of(h);
    if sums.bits < NARROW {
        u64::from(sums.low)
    } else {
        sum_before(h, SYMBOLS)
    }
}

// Whether escape has some frequency and the total is not too large.
#[tactic(auto, unfolding(crate::specs::Histogram::histogram_formed))]
pub(crate) fn histogram_formed(h: &[u32; SYMBOLS], total: u64) -> bool
    requires { (total ≡ sum h.now) }
    ensures { result ≡ histogram_formed h.now }
{
    0 < h[0] && total <= u64::from(Coder::LARGEST_TOTAL)
}

// A symbol, and the sum of the frequencies before it.
#[derive(Clone, Copy)]
pub(crate) struct Symbol {
    pub index: usize,
    pub start: u64,
}

// The symbol whose part of the total holds a place.
pub(crate) fn symbol_at(h: &[u32; SYMBOLS], place: u64) -> Symbol
    ensures { (result.index ≡ symbol_at h.now place) × (result.start ≡ sum (take result.index h.now)) × (result.start ≤ place) }
{
    let mut rest = place;
    for index in 0..SYMBOLS {
        let frequency = u64::from(h[index]);
        if rest < frequency {
            return Symbol {
                index,
                start: place - rest,
            };
        }
        rest -= frequency;
    }
    Symbol {
        index: SYMBOLS,
        start: place - rest,
    }
}

// Well-formed frequencies, and their sum.
#[derive(Clone, Copy)]
pub(crate) struct Frequencies<'a> {
    pub each: &'a [u32; SYMBOLS],
    pub total: u64,
    ghost totalled: { Totalled each.now total },
}

impl<'a> Frequencies<'a> {
    // A symbol's part of the total.
    pub(crate) fn span_of(self, symbol: usize) -> Span
        requires { symbol < symbols }
        ensures { result ≡ span_of self.entry.each.now symbol }
    {
        self.span_at(Symbol {
            index: symbol,
            start: sum_before(self.each, symbol),
        })
    }

    // The part of the total of a symbol that was found there.
    pub(crate) fn span_at(self, symbol: Symbol) -> Span
        requires { (symbol.index < symbols) × (symbol.start ≡ sum (take symbol.index self.each.now)) }
        ensures { result ≡ span_of self.entry.each.now symbol.index }
    {
        let index = symbol.index;
        Span {
            start: symbol.start as u32,
            weight: self.each[index],
            total: self.total as u32,
        }
    }
}

// Halves every frequency, rounding down.
fn halve_all(h: &mut [u32; SYMBOLS])
    ensures { h.new ≡ map halve h.old }
{
    for frequency in h {
        *frequency /= 2;
    }
}

// A full histogram is halved, and its escape frequency raised.
// Kept: frequencies that change stay apart from their total. A struct of both keeps its fact, which each change would break.
fn thin(h: &mut [u32; SYMBOLS], total: u64)
    requires { Totalled h.old total }
    ensures { h.new ≡ thinned h.old }
{
    if total >= u64::from(Coder::LARGEST_TOTAL) {
        halve_all(&mut *h);
        h[0] += 1;
    }
}

// A symbol's frequency rises.
fn raise(h: &mut [u32; SYMBOLS], total: u64, symbol: usize)
    requires { (symbol < symbols) × Totalled h.old total }
    ensures { h.new ≡ raised h.old symbol }
{
    thin(&mut *h, total);
    h[symbol] += 1;
}

// The frequencies rise after a symbol that was read or written: after an escape, also that of the value which followed.
pub(crate) fn raise_after(h: &mut [u32; SYMBOLS], total: u64, symbol: usize, value: u32)
    requires { (symbol < symbols) × (value < values) × Totalled h.old total }
    ensures { h.new ≡ symbol_after h.old symbol value }
{
    raise(&mut *h, total, symbol);
    if symbol == 0 {
        let next = total_of(&*h);
        raise(h, next, value as usize + 1);
    }
}
