// Numbers in a dynamic context, whose frequencies the caller lends.
ghost use Rattle.fields.specs.Limits.{largest_file};
ghost use Rattle.std.specs.Prelude.{◌≡◌, ◌+◌, ◌^◌, ◌<◌, ◌≤◌, true, length};
ghost use Rattle.coder.specs.Bytes.{bit_at};
ghost use Rattle.coder.specs.Histogram.{Totalled, symbols, values};
ghost use Rattle.coder.specs.Inside.{Holds, Next, Pointed, bytes_after_lead, context_number, found_as, lead_of, room_number, write_room};
ghost use Rattle.coder.specs.Interval.{Coder as Interval, WellFormed};
ghost use Rattle.coder.specs.Reading.{read_given, take_dynamic, taken, taken_histogram};
ghost use Rattle.coder.specs.Symbols.{after_symbols, dynamic_after, dynamic_spans};
ghost use Rattle.coder.specs.Values.{read_after, read_dynamic, symbol_after};
ghost use Rattle.coder.specs.Writing.{kept, write_dynamic, written_given, written_histogram};

use crate::histogram::{
    Frequencies, SYMBOLS, Symbol, VALUES, histogram_formed, raise_after, symbol_at, total_of,
};
use crate::interval::{Coder, Span};
use crate::read::Found;
use crate::write::{U32_BYTES, Writer};
use fields::refusal::Fault;

// The symbol of a value: its own, or escape where its frequency is 0.
#[tactic(auto, using(crate::proofs::Dynamics::lead_escape, crate::proofs::Dynamics::lead_value))]
fn symbol_of(frequencies: &[u32; SYMBOLS], value: u32) -> usize
    requires { value < values }
    ensures { result ≡ lead_of frequencies.now value }
{
    let symbol = value as usize + 1;
    if frequencies[symbol] == 0 { 0 } else { symbol }
}

// The plain bytes that follow a symbol.
fn bytes_after(symbol: usize) -> u32
    ensures value { result ≡ bytes_after_lead symbol }
    ensures upper_bound { result ≤ 4 }
{
    if symbol == 0 { U32_BYTES } else { 0 }
}

impl Writer {
    // Writes a value where there is room for it; its frequency rises where that is done.
    fn write_formed(
        self,
        buf: &mut [u8],
        frequencies: &mut [u32; SYMBOLS],
        total: u64,
        value: u32,
    ) -> Result<Writer, Fault>
        requires well_formed { WellFormed self.coder × Holds buf.old self.coder }
        requires totalled { Totalled frequencies.old total × (value < values) }
        ensures buf_after { written_given self result buf.new ≡ write_room buf.old self true (dynamic_spans frequencies.old value) }
        ensures frequencies_after { frequencies.new ≡ kept (room_number buf.old (after_symbols self.coder (dynamic_spans frequencies.old value))) (dynamic_after frequencies.old value) frequencies.old }
    {
        let symbol = symbol_of(&*frequencies, value);
        let count = bytes_after(symbol);
        let span = Frequencies {
            each: &*frequencies,
            total,
        }
        .span_of(symbol);
        let writer = self.write_led(buf, true, span, value, count)?;
        raise_after(frequencies, total, symbol, value);
        Ok(writer)
    }

    // Writes a value in a dynamic context.
    pub fn write_dynamic(
        self,
        buf: &mut [u8],
        frequencies: &mut [u32; SYMBOLS],
        value: u32,
    ) -> Result<Writer, Fault>
        ensures buf_after { written_given self result buf.new ≡ write_dynamic frequencies.old buf.old self value }
        ensures frequencies_after { frequencies.new ≡ written_histogram frequencies.old buf.old self value }
    {
        self.coder.write_fault(buf.len())?;
        let total = total_of(&*frequencies);
        if !histogram_formed(&*frequencies, total) {
            return Err(Fault::BadState);
        }
        if value >= VALUES {
            return Err(Fault::OutOfRange);
        }
        self.write_formed(buf, frequencies, total, value)
    }
}

impl Coder {
    // The symbol that the number points to.
    fn next_symbol(self, bytes: &[u8], number: u32, frequencies: Frequencies) -> Symbol
        requires { Pointed self (bit_at bytes.now) number }
        ensures { Next frequencies.entry.each.now (bit_at bytes.now) self result.index result.start }
    {
        let place = self.target(number, frequencies.total as u32);
        symbol_at(frequencies.each, u64::from(place))
    }

    // The answer where a value was found, and this is the state after it; after one that is accepted the frequencies rise.
    fn counted(
        self,
        len: usize,
        value: u32,
        frequencies: &mut [u32; SYMBOLS],
        total: u64,
        symbol: usize,
    ) -> Result<Found, Fault>
        requires len_le_largest_file { (len ≤ largest_file) × (symbol < symbols) }
        requires totalled { Totalled frequencies.old total }
        ensures result_value { (s : Interval) → read_given s result
            ≡ taken (context_number len (found_as value self)) (found_as value self) s }
        ensures frequencies_after { frequencies.new
            ≡ kept (context_number len (found_as value self)) (symbol_after frequencies.old symbol value) frequencies.old }
    {
        let found = self.accepted(len, value, value < VALUES)?;
        raise_after(frequencies, total, symbol, value);
        Ok(found)
    }

    // The value where state and histogram are well formed: it follows an escape, or is the symbol.
    pub(crate) fn read_formed(
        self,
        bytes: &[u8],
        number: u32,
        frequencies: &mut [u32; SYMBOLS],
        total: u64,
    ) -> Result<Found, Fault>
        requires pointed { Pointed self (bit_at bytes.now) number }
        requires pending_bound { (self.settled + self.pending < 2 ^ 33) × (length bytes.now ≤ largest_file) }
        requires totalled { Totalled frequencies.old total }
        ensures result_value { read_given self result
            ≡ taken (context_number (length bytes.now) (read_dynamic frequencies.old (bit_at bytes.now) self)) (read_dynamic frequencies.old (bit_at bytes.now) self) self }
        ensures frequencies_after { frequencies.new ≡ kept (context_number (length bytes.now) (read_dynamic frequencies.old (bit_at bytes.now) self)) (read_after frequencies.old (bit_at bytes.now) self) frequencies.old }
    {
        let lent = Frequencies {
            each: &*frequencies,
            total,
        };
        let symbol = self.next_symbol(bytes, number, lent);
        let index = symbol.index;
        let state = self.after(lent.span_at(symbol));
        if index != 0 {
            return state.counted(bytes.len(), index as u32 - 1, frequencies, total, index);
        }
        let found = state.plain_value(bytes, state.code(bytes), U32_BYTES);
        found
            .state
            .counted(bytes.len(), found.value, frequencies, total, index)
    }

    // Reads a value in a dynamic context.
    pub fn read_dynamic(
        self,
        bytes: &[u8],
        frequencies: &mut [u32; SYMBOLS],
    ) -> Result<Found, Fault>
        ensures result_value { read_given self result ≡ take_dynamic frequencies.old bytes.now self }
        ensures frequencies_after { frequencies.new ≡ taken_histogram frequencies.old bytes.now self }
    {
        let number = self.start(bytes)?;
        if !self.pending_inverted(bytes) {
            return Err(Fault::BadState);
        }
        let total = total_of(&*frequencies);
        if !histogram_formed(&*frequencies, total) {
            return Err(Fault::BadState);
        }
        self.read_formed(bytes, number, frequencies, total)
    }
}
