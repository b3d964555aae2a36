// The coder's reader: it judges what it is lent and finds the number that the bits were written for.
ghost use Rattle.fields.specs.Limits.{largest_file};
ghost use Rattle.std.specs.Prelude.{◌≡◌, ◌+◌, ◌-◌, ◌*◌, ◌/◌, ◌^◌, ◌<◌, ◌≤◌, true, false, not, ◌&&◌, ◌||◌, length, nat_le};
ghost use Rattle.coder.specs.Bytes.{bit_at};
ghost use Rattle.coder.specs.Forms.{fault_given, is_run, pending_inverted};
ghost use Rattle.coder.specs.Inside.{Pointed, Started, Stepped, count_fault, found_as, value_number};
ghost use Rattle.coder.specs.Interval.{Coder as Interval, code, target, WellFormed, largest_range};
ghost use Rattle.coder.specs.Reading.{read_given, taken, take_plain, take_static};
ghost use Rattle.coder.specs.Values.{read_plain, read_static, symbol_value};
ghost use Rattle.coder.specs.Writing.{bytes_in};

use crate::bits::{bit_at, word_at};
use crate::interval::Coder;
use crate::reverse::{reversed, reversed_bytes};
use crate::write::{U32_BYTES, Width, static_span};
use fields::limits::LARGEST_FILE;
use fields::refusal::Fault;

// The first count of bits that a reader's state may not have.
const TOO_MANY: u64 = 0x100000000;

// A value, and the state after it.
#[derive(Clone, Copy, Debug, PartialEq, Eq)]
pub struct Found {
    pub value: u32,
    pub state: Coder,
}

// Whether count bits from a place are all equal to bit. Past the end every bit is 0, so the rest of a run is not walked.
fn is_run(bytes: &[u8], from: u64, count: u64, bit: u32) -> bool
    requires from_bound { (from < 2 ^ 34) × (count < 2 ^ 34) }
    requires bytes_len_bound { length bytes.now ≤ largest_file }
    ensures { result ≡ is_run (bit_at bytes.now) from count bit }
{
    let bits = 8 * bytes.len() as u64;
    for at in from..from + count {
        if bit_at(bytes, at) != bit {
            return false;
        }
        if bits <= at {
            return true;
        }
    }
    true
}

impl Coder {
    // The number that is compared with the limits: the next bit, and the fifteen after the pending ones.
    pub(crate) fn code(self, bytes: &[u8]) -> u32
        requires { self.settled + self.pending < 2 ^ 33 + 256 }
        ensures { result ≡ code self (bit_at bytes.now) }
    {
        bit_at(bytes, self.settled) * 0x8000 + word_at(bytes, self.settled + 1 + self.pending)
    }

    // The place among the frequencies that the code points to.
    pub(crate) fn target(self, number: u32, total: u32) -> u32
        requires well_formed { WellFormed self × (self.low ≤ number) × (number ≤ self.high) }
        requires le_total { (1 ≤ total) × (total ≤ largest_range) }
        ensures { result ≡ (total * (number + 1 - self.low) - 1) / (self.high + 1 - self.low) }
    {
        (total * (number + 1 - self.low) - 1) / (self.high + 1 - self.low)
    }

    // A value in a static range that is coded as one symbol.
    // Kept: one struct of state, data and number is no plainer. Each step goes on with the state alone, and would take it apart first.
    fn symbol_value(self, bytes: &[u8], number: u32, range: u32) -> Found
        requires pointed { Pointed self (bit_at bytes.now) number }
        requires pending_bound { (self.settled + self.pending < 2 ^ 33 + 256) × (1 ≤ range) × (range ≤ largest_range) }
        ensures value { result ≡ symbol_value range (bit_at bytes.now) self }
        ensures stepped { Stepped range (bit_at bytes.now) self result 32 }
    {
        let value = self.target(number, range);
        Found {
            value,
            state: self.after(static_span(range, value)),
        }
    }

    // A plain value of count bytes, to whose first symbol the number points.
    pub(crate) fn plain_value(self, bytes: &[u8], first: u32, count: u32) -> Found
        requires pointed { Pointed self (bit_at bytes.now) first }
        requires pending_bound { (self.settled + self.pending < 2 ^ 33 + 32) × (1 ≤ count) × (count ≤ 4) }
        ensures { result ≡ read_plain count (bit_at bytes.now) self }
    {
        let table = reversed_bytes();
        let mut s = self;
        let mut number = first;
        let mut value: u64 = 0;
        let mut place: u64 = 1;
        let mut left = count;
        // Kept: a for is no plainer, since the next number is looked up after each byte but the last, in the loop's middle.
        loop {
            let symbol = s.target(number, 256);
            value += place * u64::from(reversed(&table, symbol));
            s = s.after(static_span(256, symbol));
            left -= 1;
            if left == 0 {
                return Found {
                    value: value as u32,
                    state: s,
                };
            }
            place = place * 256;
            number = s.code(bytes);
        }
    }

    // The same state, field by field: where it is copied whole, the processor waits for fields that were just stored apart.
    fn copied(self) -> Coder
        ensures { result ≡ self }
    {
        Coder {
            low: self.low,
            high: self.high,
            pending: self.pending,
            settled: self.settled,
        }
    }

    // Whether a number lies from low to high.
    fn holds(self, number: u32) -> bool
        ensures { result ≡ (nat_le self.low number && nat_le number self.high) }
    {
        self.low <= number && number <= self.high
    }

    // Whether the bits after the next one, as many as are pending, are its inverse.
    pub(crate) fn pending_inverted(self, bytes: &[u8]) -> bool
        requires { (self.settled < 2 ^ 32) × (self.pending < 2 ^ 32) × (length bytes.now ≤ largest_file) }
        ensures { result ≡ pending_inverted self (bit_at bytes.now) }
    {
        let next = bit_at(bytes, self.settled);
        is_run(bytes, self.settled + 1, self.pending, 1 - next)
    }

    // Refused for data of len bytes, or for limits and counts.
    #[tactic(auto, unfolding(crate::specs::Inside::count_fault))]
    fn count_fault(self, len: usize) -> Result<(), Fault>
        ensures { fault_given result ≡ count_fault self len }
    {
        if len > LARGEST_FILE {
            return Err(Fault::OverLimit);
        }
        if self.well_formed() && self.settled < TOO_MANY && self.pending < TOO_MANY {
            Ok(())
        } else {
            Err(Fault::BadState)
        }
    }

    // Whether the pending bits are inverted, where that is asked.
    fn looked(self, bytes: &[u8], look: bool) -> bool
        requires { (self.settled < 2 ^ 32) × (self.pending < 2 ^ 32) × (length bytes.now ≤ largest_file) }
        ensures { result ≡ (not look || pending_inverted self (bit_at bytes.now)) }
    {
        !look || self.pending_inverted(bytes)
    }

    // What every read begins with, but for the pending bits: the number that is found.
    pub(crate) fn start(self, bytes: &[u8]) -> Result<u32, Fault>
        ensures { Started bytes.now self result }
    {
        self.count_fault(bytes.len())?;
        let number = self.code(bytes);
        if self.holds(number) {
            Ok(number)
        } else {
            Err(Fault::BadState)
        }
    }

    // Refused where the settled bits of this state pass the end of data of len bytes, or the value before it is not good.
    #[tactic(auto, unfolding(crate::specs::Inside::value_number))]
    fn value_fault(self, len: usize, good: bool) -> Result<(), Fault>
        requires { len ≤ largest_file }
        ensures { fault_given result ≡ value_number len (found_as 0 self) good }
    {
        if self.settled > 8 * len as u64 {
            Err(Fault::Truncated)
        } else if good {
            Ok(())
        } else {
            Err(Fault::OutOfRange)
        }
    }

    // The answer where a value was found in data of len bytes, and this is the state after it. Value and state come apart, since a struct
    // of both would be copied once more at every number.
    pub(crate) fn accepted(self, len: usize, value: u32, good: bool) -> Result<Found, Fault>
        requires { len ≤ largest_file }
        ensures { (s : Interval) → read_given s result ≡ taken (value_number len (found_as value self) good) (found_as value self) s }
    {
        self.value_fault(len, good)?;
        Ok(Found { value, state: self })
    }

    // A value in a static range: one symbol, or a plain U32 where the range is too large. What the call left in memory is taken field by
    // field, so that a symbol's value and state need not go through memory.
    #[tactic(auto, unfolding(crate::specs::Values::read_static))]
    fn static_value(self, bytes: &[u8], number: u32, range: u32) -> Found
        requires pointed { Pointed self (bit_at bytes.now) number }
        requires pending_bound { (self.settled + self.pending < 2 ^ 33) × (1 ≤ range) }
        ensures { result ≡ read_static range (bit_at bytes.now) self }
    {
        if range <= Coder::LARGEST_RANGE {
            self.symbol_value(bytes, number, range)
        } else {
            let found = self.plain_value(bytes, number, U32_BYTES);
            Found {
                value: found.value,
                state: found.state.copied(),
            }
        }
    }

    fn judged_plain(self, bytes: &[u8], look: bool, width: Width) -> Result<Found, Fault>
        ensures { read_given self result ≡ take_plain look (bytes_in width) bytes.now self }
    {
        let number = self.start(bytes)?;
        if !self.looked(bytes, look) {
            return Err(Fault::BadState);
        }
        let found = self.copied().plain_value(bytes, number, width.bytes());
        found.state.accepted(bytes.len(), found.value, true)
    }

    // Reads a plain value.
    pub fn read_plain(self, bytes: &[u8], width: Width) -> Result<Found, Fault>
        ensures { read_given self result ≡ take_plain true (bytes_in width) bytes.now self }
    {
        self.judged_plain(bytes, true, width)
    }

    // The same for a state that the reader made on the same data: its pending bits are not judged again.
    pub fn take_plain(self, bytes: &[u8], width: Width) -> Result<Found, Fault>
        ensures { read_given self result ≡ take_plain false (bytes_in width) bytes.now self }
    {
        self.judged_plain(bytes, false, width)
    }

    // Reads a value in a static range.
    pub fn read_static(self, bytes: &[u8], range: u32) -> Result<Found, Fault>
        ensures { read_given self result ≡ take_static true range bytes.now self }
    {
        let number = self.start(bytes)?;
        if !self.pending_inverted(bytes) {
            return Err(Fault::BadState);
        }
        if range == 0 {
            return Err(Fault::OutOfRange);
        }
        let found = self.static_value(bytes, number, range);
        found
            .state
            .accepted(bytes.len(), found.value, found.value < range)
    }

    // The same for a state that the reader made on the same data: its pending bits are not judged again.
    // Kept: one function for both misses a speed bar. Runs of numbers spend their time here, and the compiler then keeps it out of their
    // loop.
    pub fn take_static(self, bytes: &[u8], range: u32) -> Result<Found, Fault>
        ensures { read_given self result ≡ take_static false range bytes.now self }
    {
        let number = self.start(bytes)?;
        if range == 0 {
            return Err(Fault::OutOfRange);
        }
        if range <= Coder::LARGEST_RANGE {
            let value = self.target(number, range);
            let next = self.after(static_span(range, value));
            return next.accepted(bytes.len(), value, value < range);
        }
        let found = self.plain_value(bytes, number, U32_BYTES);
        found
            .state
            .accepted(bytes.len(), found.value, found.value < range)
    }
}
