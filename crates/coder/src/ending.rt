// The end of a coded run (10.4.10).
ghost use Rattle.fields.specs.Limits.{largest_file};
ghost use Rattle.std.specs.Prelude.{◌≡◌, ◌+◌, ◌*◌, ◌≤◌};
ghost use Rattle.coder.specs.Bytes.{bytes_of};
ghost use Rattle.coder.specs.Ending.{low_bits, low_state};
ghost use Rattle.coder.specs.Inside.{Holds, end_room};
ghost use Rattle.coder.specs.Interval.{WellFormed};
ghost use Rattle.coder.specs.Symbols.{after_symbols, plain_spans, symbols_bits};
ghost use Rattle.coder.specs.Writing.{end, ended_given};

use crate::bits::pad;
use crate::interval::Coder;
use crate::write::{Writer, byte_span};
use fields::refusal::Fault;

// The bytes that an ended run takes, and the state after it.
#[derive(Clone, Copy, Debug, PartialEq, Eq)]
pub struct Ended {
    pub used: usize,
    pub writer: Writer,
}

// The bytes that so many bits take.
fn bytes_of(bits: u64) -> usize
    requires { bits ≤ 8 * largest_file }
    ensures { result ≡ bytes_of bits }
{
    ((bits + 7) / 8) as usize
}

impl Coder {
    // The state after low itself was written.
    fn low_ended(self) -> Coder
        requires { self.settled + self.pending ≤ 8 * largest_file }
        ensures { result ≡ low_state self }
    {
        Coder {
            low: 0,
            high: Coder::HIGH_LIMIT,
            pending: 0,
            settled: self.settled + 1 + self.pending + 15,
        }
    }
}

impl Writer {
    // Ends with low itself: its top bit, the pending ones inverted, its other fifteen.
    fn end_low(self, buf: &mut [u8]) -> Result<Ended, Fault>
        requires { WellFormed self.coder × Holds buf.old self.coder }
        ensures { ended_given self result buf.new ≡ end_room buf.old self (low_state self.coder) (low_bits self.coder) }
    {
        let start = self.coder;
        let next = start.low_ended();
        if !next.has_room(buf.len()) {
            return Err(Fault::NoRoom);
        }
        pad(&mut *buf, start.settled);
        start.put_tops(16, &mut *buf);
        Ok(Ended {
            used: bytes_of(next.settled),
            writer: Writer {
                coder: next,
                ..self
            },
        })
    }

    // Ends with a plain U32 of 0.
    fn end_zero(self, buf: &mut [u8]) -> Result<Ended, Fault>
        requires { WellFormed self.coder × Holds buf.old self.coder }
        ensures { ended_given self result buf.new
            ≡ end_room buf.old self (after_symbols self.coder (plain_spans 4 0)) (symbols_bits self.coder (plain_spans 4 0)) }
    {
        let writer = self.write_led(buf, false, byte_span(0), 0, 3)?;
        Ok(Ended {
            used: bytes_of(writer.coder.settled),
            writer,
        })
    }

    // Ends a coded run: after a compressed value with a plain U32 of 0, else, where zeros would not lead a reader to low, with low.
    pub fn finish(self, buf: &mut [u8]) -> Result<Ended, Fault>
        ensures { ended_given self result buf.new ≡ end buf.old self }
    {
        let start = self.coder;
        start.write_fault(buf.len())?;
        let compressed = self.compressed;
        if compressed {
            return self.end_zero(buf);
        }
        if start.low != 0 || start.pending != 0 {
            return self.end_low(buf);
        }
        pad(buf, start.settled);
        Ok(Ended {
            used: bytes_of(start.settled),
            writer: self,
        })
    }
}
