// The reader for runs of numbers, in dynamic contexts: the caller lends the total of the frequencies beside them, so that they need not be
// added up at every number.
ghost use Rattle.fields.specs.Limits.{largest_file};
ghost use Rattle.std.specs.Prelude.{◌≡◌, ◌+◌, ◌^◌, ◌<◌, ◌≤◌, length, take};
ghost use Rattle.coder.specs.Bytes.{bit_at};
ghost use Rattle.coder.specs.Histogram.{largest_total, part_fits, span_in, sum, symbols};
ghost use Rattle.coder.specs.Inside.{Pointed, QuickGiven, Room, quick_counted, summed_counted};
ghost use Rattle.coder.specs.Interval.{Codable, WellFormed};
ghost use Rattle.coder.specs.Totals.{counted_given, take_counted};

use crate::histogram::{SYMBOLS, Symbol, histogram_formed, symbol_at, total_of};
use crate::interval::{Coder, Span};
use crate::read::Found;
use fields::refusal::Fault;

// Whether nothing has to be added up for a symbol.
#[tactic(auto, unfolding(crate::specs::Histogram::part_fits))]
fn part_fits(h: &[u32; SYMBOLS], total: u32, symbol: Symbol) -> bool
    requires { (symbol.start ≡ sum (take symbol.index h.now)) × (symbol.start < 2 ^ 32) }
    ensures { result ≡ part_fits total h.now symbol.index }
{
    let index = symbol.index;
    0 < h[0]
        && 0 < index
        && index < SYMBOLS
        && symbol.start + u64::from(h[index]) <= u64::from(total)
}

impl Coder {
    // The symbol that the number points to; none where the frequencies have to be added up.
    fn quick_symbol(
        self,
        bytes: &[u8],
        number: u32,
        h: &[u32; SYMBOLS],
        total: u32,
    ) -> Option<Symbol>
        requires { Pointed self (bit_at bytes.now) number }
        ensures { QuickGiven total h.now (bit_at bytes.now) self result }
    {
        if total < 1 || total >= Coder::LARGEST_TOTAL {
            return None;
        }
        let symbol = symbol_at(h, u64::from(self.target(number, total)));
        if part_fits(h, total, symbol) {
            Some(symbol)
        } else {
            None
        }
    }

    // The value of such a symbol; its frequency and the total rise.
    fn take_quick(
        self,
        len: usize,
        frequencies: &mut [u32; SYMBOLS],
        total: &mut u32,
        symbol: Symbol,
    ) -> Result<Found, Fault>
        requires len_le_largest_file { (len ≤ largest_file) × WellFormed self × Room 32 self }
        requires start_value { symbol.start ≡ sum (take symbol.index frequencies.old) }
        requires index_nonzero { (0 < symbol.index) × (symbol.index < symbols) × (total.old < largest_total) }
        requires codable { Codable (span_in total.old frequencies.old symbol.index) }
        ensures { counted_given self result frequencies.new total.new ≡ quick_counted len self frequencies.old total.old symbol.index }
    {
        let index = symbol.index;
        let next = self.after(Span {
            start: symbol.start as u32,
            weight: frequencies[index],
            total: *total,
        });
        if next.settled > 8 * len as u64 {
            return Err(Fault::Truncated);
        }
        frequencies[index] += 1;
        *total += 1;
        Ok(Found {
            value: index as u32 - 1,
            state: next,
        })
    }

    // The value where the frequencies are added up, and their new total.
    fn take_summed(
        self,
        bytes: &[u8],
        number: u32,
        frequencies: &mut [u32; SYMBOLS],
        total: &mut u32,
    ) -> Result<Found, Fault>
        requires pointed { Pointed self (bit_at bytes.now) number }
        requires pending_bound { (self.settled + self.pending < 2 ^ 33) × (length bytes.now ≤ largest_file) }
        ensures { counted_given self result frequencies.new total.new ≡ summed_counted bytes.now self frequencies.old total.old }
    {
        let sum = total_of(&*frequencies);
        if sum != u64::from(*total) {
            return Err(Fault::BadState);
        }
        if !histogram_formed(&*frequencies, sum) {
            return Err(Fault::BadState);
        }
        let found = self.read_formed(bytes, number, &mut *frequencies, sum)?;
        *total = total_of(&*frequencies) as u32;
        Ok(found)
    }

    // As read_dynamic, for a state that the reader made on the same data and a total that is the frequencies' sum: neither the pending bits
    // nor, mostly, the sum are judged again.
    pub fn take_dynamic(
        self,
        bytes: &[u8],
        frequencies: &mut [u32; SYMBOLS],
        total: &mut u32,
    ) -> Result<Found, Fault>
        ensures { counted_given self result frequencies.new total.new ≡ take_counted total.old frequencies.old bytes.now self }
    {
        let number = self.start(bytes)?;
        match self.quick_symbol(bytes, number, &*frequencies, *total) {
            Some(symbol) => self.take_quick(bytes.len(), frequencies, total, symbol),
            None => self.take_summed(bytes, number, frequencies, total),
        }
    }
}
