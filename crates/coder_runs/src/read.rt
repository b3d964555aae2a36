// Calls of the reader.
use crate::record::{Call, Operation};
use coder::histogram::SYMBOLS;
use coder::interval::Coder;
use coder::read::Found;
use coder::write::Width;
use fields::refusal::Fault;

// The last value, or why it is refused. The sum is that of the values so far, modulo 2^32; the total is that of a histogram read by
// TakeDynamic.
#[derive(Clone, Copy)]
pub struct Answer {
    pub last: Result<u32, Fault>,
    pub sum: u32,
    pub total: u32,
}

// The total that the first call is lent.
fn total_of(call: Call, histogram: &[u32; SYMBOLS]) -> u32 {
    if call.c == 1 {
        return call.b;
    }
    let mut total: u32 = 0;
    for &weight in histogram {
        total = total.wrapping_add(weight);
    }
    total
}

fn width_of(bytes: u32) -> Width {
    match bytes {
        1 => Width::U8,
        2 => Width::U16,
        _ => Width::U32,
    }
}

fn read_once(
    call: Call,
    state: Coder,
    bytes: &[u8],
    histogram: &mut [u32; SYMBOLS],
    total: &mut u32,
) -> Result<Found, Fault> {
    match call.operation {
        Operation::ReadStatic => state.read_static(bytes, call.a),
        Operation::ReadDynamic => state.read_dynamic(bytes, histogram),
        Operation::ReadPlain => state.read_plain(bytes, width_of(call.a)),
        Operation::TakeStatic => state.take_static(bytes, call.a),
        Operation::TakeDynamic => state.take_dynamic(bytes, histogram, total),
        _ => state.take_plain(bytes, width_of(call.a)),
    }
}

// Reads until a call is refused or all are made; the state stays as the last one that was read left it.
pub(crate) fn read_all(
    call: Call,
    state: &mut Coder,
    bytes: &[u8],
    histogram: &mut [u32; SYMBOLS],
) -> Answer {
    let mut total = total_of(call, &*histogram);
    let mut last = Ok(0);
    let mut sum: u32 = 0;
    for _ in 0..u64::from(call.d) + 1 {
        match read_once(call, *state, bytes, &mut *histogram, &mut total) {
            Ok(found) => {
                *state = found.state;
                last = Ok(found.value);
                sum = sum.wrapping_add(found.value);
            }
            Err(fault) => {
                last = Err(fault);
                break;
            }
        }
    }
    Answer { last, sum, total }
}
