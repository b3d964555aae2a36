// A script's records: an operation and five operands, each a U32.
ghost use Rattle.std.specs.Prelude.{◌<◌};

use crate::machine::{HISTOGRAMS, ROOM};
use coder::histogram::SYMBOLS;
use fields::field::field_at;

pub const RECORD_SIZE: usize = 24;

// An operation's number is its place here.
#[derive(Clone, Copy, PartialEq, Eq)]
pub enum Operation {
    // The lent length is a and every byte b; writer, reader and histograms are fresh.
    Start,
    // Low a, high b, pending c, settled d. In e: bit 0 is compressed, bit 1 adds 2^32 to pending, bit 2 to settled.
    SetWriter,
    // The same, without bit 0 of e.
    SetReader,
    // The weight of symbol b in histogram a is c.
    SetWeight,
    // The byte at a is b.
    SetByte,
    // The lent length is a.
    SetLength,
    // Writes the value b in the range a, then d values more, each larger by c than the one before. Where e is not 0, each is taken
    // modulo e.
    WriteStatic,
    // The same with histogram a.
    WriteDynamic,
    // The same as a bytes.
    WritePlain,
    // Ends the coded run.
    End,
    // Reads d + 1 values in the range a.
    ReadStatic,
    // The same with histogram a.
    ReadDynamic,
    // The same of a bytes.
    ReadPlain,
    // As ReadStatic, without judging the pending bits.
    TakeStatic,
    // As ReadDynamic, likewise, with the total b where c is 1, else with the sum of the weights.
    TakeDynamic,
    // As ReadPlain, likewise.
    TakePlain,
    // Prints the first a bytes.
    ShowBytes,
    // Prints the weights above 0 of histogram a.
    ShowWeights,
}

const OPERATIONS: [Operation; 18] = [
    Operation::Start,
    Operation::SetWriter,
    Operation::SetReader,
    Operation::SetWeight,
    Operation::SetByte,
    Operation::SetLength,
    Operation::WriteStatic,
    Operation::WriteDynamic,
    Operation::WritePlain,
    Operation::End,
    Operation::ReadStatic,
    Operation::ReadDynamic,
    Operation::ReadPlain,
    Operation::TakeStatic,
    Operation::TakeDynamic,
    Operation::TakePlain,
    Operation::ShowBytes,
    Operation::ShowWeights,
];

#[derive(Clone, Copy)]
pub struct Call {
    pub operation: Operation,
    pub a: u32,
    pub b: u32,
    pub c: u32,
    pub d: u32,
    pub e: u32,
}

// A record's number, 0 where the record ends before it does.
fn number_at(record: &[u8], at: usize) -> u32 {
    field_at::<u32>(record, at).unwrap_or(0)
}

// The call that a record is; none where the operation is not known.
pub(crate) fn call_of(record: &[u8]) -> Option<Call> {
    let operation = *OPERATIONS.get(number_at(record, 0) as usize)?;
    Some(Call {
        operation,
        a: number_at(record, 4),
        b: number_at(record, 8),
        c: number_at(record, 12),
        d: number_at(record, 16),
        e: number_at(record, 20),
    })
}

impl Call {
    // The histogram that the call names.
    pub(crate) fn histogram(self) -> usize
        ensures { result < 4 }
    {
        self.a as usize % HISTOGRAMS
    }

    // Whether the operands are in their ranges.
    pub(crate) fn is_in_range(self) -> bool {
        let a = self.a as usize;
        match self.operation {
            Operation::Start | Operation::SetLength | Operation::ShowBytes => a <= ROOM,
            Operation::SetWeight => a < HISTOGRAMS && (self.b as usize) < SYMBOLS,
            Operation::SetByte => a < ROOM,
            Operation::WriteDynamic => a < 2,
            Operation::ReadDynamic | Operation::TakeDynamic => 2 <= a && a < HISTOGRAMS,
            Operation::WritePlain | Operation::ReadPlain | Operation::TakePlain => {
                matches!(self.a, 1 | 2 | 4)
            }
            Operation::ShowWeights => a < HISTOGRAMS,
            _ => true,
        }
    }
}
