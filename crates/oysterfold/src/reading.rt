// Reading coded numbers.
ghost use Rattle.std.specs.Prelude.{◌≡◌, ◌||◌, true, ◌≤◌, length, take};
ghost use Rattle.coder.specs.Histogram.{symbols};
ghost use Rattle.coder.specs.Interval.{fresh};
ghost use Rattle.coder.specs.declared.interval.Coder.{Coder as State};
ghost use Rattle.coder.specs.Reading.{read_given, take_dynamic, take_static, taken_histogram};
ghost use Rattle.oysterfold.specs.CoderState.{coder_in, coder_length, coder_words, context_short, histogram_into, shorter};
ghost use Rattle.oysterfold.specs.Fresh.{stored, stored_into};
ghost use Rattle.oysterfold.specs.Reading.{handed, handed_by, read_into, take_bytes};
ghost use Rattle.oysterfold.specs.Result.{result_words};

use crate::coder_state::{CODER_WORDS, coder_in, put_coder};
use crate::result::{NO_ROOM, RESULT_WORDS, tell, unplaced};
use coder::histogram::SYMBOLS;
use coder::interval::Coder;
use coder::read::Found;
use coder::write::Width;
use fields::refusal::Fault;

// A fresh reader's state.
// Kept: the export of this name calls it.
pub fn oysterfold_reader_fresh(state: &mut [u64]) -> u32
    ensures { stored result state.new ≡ stored_into (coder_words fresh) state.old }
{
    if state.len() < CODER_WORDS {
        return NO_ROOM;
    }
    put_coder(state, Coder::fresh());
    0
}

// The number of an answer, its value told; where the number is 0 the state after it is stored.
fn answer(read: Result<Found, Fault>, state: &mut [u64], res: &mut [u64]) -> u32
    requires { (coder_length ≤ length state.old) × (result_words ≤ length res.old) }
    ensures { (s : State) → handed result state.new res.new ≡ handed_by (read_given s read) state.old res.old }
{
    match read {
        Err(fault) => unplaced(res, fault),
        Ok(found) => {
            put_coder(state, found.state);
            tell(res, Ok(found.value as usize))
        }
    }
}

// Reads a value in a static range; result: place, value.
pub fn oysterfold_read_static(state: &mut [u64], coded: &[u8], range: u32, res: &mut [u64]) -> u32
    ensures { handed result state.new res.new ≡ read_into (shorter coder_length state.old) (take_static true range coded.now (coder_in state.old)) state.old res.old }
{
    if res.len() < RESULT_WORDS {
        return NO_ROOM;
    }
    if state.len() < CODER_WORDS {
        return unplaced(res, Fault::NoRoom);
    }
    let read = coder_in(state).read_static(coded, range);
    answer(read, state, res)
}

// A plain value whose bytes are no width is refused as a value in an empty range is.
fn read_plain(s: Coder, coded: &[u8], bytes: u32) -> Result<Found, Fault>
    ensures { read_given s result ≡ take_bytes bytes coded.now s }
{
    match Width::try_from(bytes) {
        Ok(width) => s.read_plain(coded, width),
        Err(_) => s.read_static(coded, 0),
    }
}

// Reads a plain value of 1, 2 or 4 bytes; result: place, value.
pub fn oysterfold_read_plain(state: &mut [u64], coded: &[u8], bytes: u32, res: &mut [u64]) -> u32
    ensures { handed result state.new res.new ≡ read_into (shorter coder_length state.old) (take_bytes bytes coded.now (coder_in state.old)) state.old res.old }
{
    if res.len() < RESULT_WORDS {
        return NO_ROOM;
    }
    if state.len() < CODER_WORDS {
        return unplaced(res, Fault::NoRoom);
    }
    let read = read_plain(coder_in(state), coded, bytes);
    answer(read, state, res)
}

// Reads a value in a dynamic context; result: place, value.
pub fn oysterfold_read_dynamic(
    state: &mut [u64],
    coded: &[u8],
    histogram: &mut [u32],
    res: &mut [u64],
) -> u32
    ensures res_after { handed result state.new res.new ≡ read_into (context_short coder_length state.old histogram.old) (take_dynamic (take symbols histogram.old) coded.now (coder_in state.old)) state.old res.old }
    ensures histogram_after { histogram.new ≡ histogram_into (shorter result_words res.old || context_short coder_length state.old histogram.old) (taken_histogram (take symbols histogram.old) coded.now (coder_in state.old)) histogram.old }
{
    if res.len() < RESULT_WORDS {
        return NO_ROOM;
    }
    if state.len() < CODER_WORDS {
        return unplaced(res, Fault::NoRoom);
    }
    let Some(frequencies) = histogram.first_chunk_mut::<SYMBOLS>() else {
        return unplaced(res, Fault::NoRoom);
    };
    let read = coder_in(state).read_dynamic(coded, frequencies);
    answer(read, state, res)
}
