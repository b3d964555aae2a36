// Writing coded numbers.
ghost use Rattle.std.specs.Prelude.{◌≡◌, ◌||◌, List, ℕ, ◌≤◌, length, take};
ghost use Rattle.coder.specs.Histogram.{symbols};
ghost use Rattle.coder.specs.declared.write.Writer.{Writer as State};
ghost use Rattle.coder.specs.Writing.{end, ended_given, fresh_writer, write_dynamic, write_static, written_given, written_histogram};
ghost use Rattle.oysterfold.specs.CoderState.{context_short, histogram_into, shorter, writer_in, writer_length, writer_words};
ghost use Rattle.oysterfold.specs.Fresh.{stored, stored_into};
ghost use Rattle.oysterfold.specs.Result.{result_words, value_told};
ghost use Rattle.oysterfold.specs.Writing.{end_write, handed, handed_by, used_into, write_bytes, written_into};

use crate::coder_state::{WRITER_WORDS, put_writer, writer_in};
use crate::result::{NO_ROOM, RESULT_WORDS, tell, unplaced};
use coder::ending::Ended;
use coder::histogram::SYMBOLS;
use coder::write::{Width, Writer};
use fields::refusal::Fault;

// A fresh writer's state.
// Kept: the export of this name calls it.
pub fn oysterfold_writer_fresh(state: &mut [u64]) -> u32
    ensures { stored result state.new ≡ stored_into (writer_words fresh_writer) state.old }
{
    if state.len() < WRITER_WORDS {
        return NO_ROOM;
    }
    put_writer(state, Writer::fresh());
    0
}

// The number of an answer; where it is 0 the state after it is stored.
fn answer(written: Result<Writer, Fault>, state: &mut [u64]) -> u32
    requires { writer_length ≤ length state.old }
    ensures { (w : State) (bytes : List ℕ) → handed result state.new bytes ≡ handed_by (written_given w written bytes) state.old }
{
    match written {
        Err(fault) => u32::from(fault),
        Ok(after) => {
            put_writer(state, after);
            0
        }
    }
}

// Writes a value in a static range.
pub fn oysterfold_write_static(state: &mut [u64], buffer: &mut [u8], range: u32, value: u32) -> u32
    ensures { handed result state.new buffer.new ≡ written_into (shorter writer_length state.old) (write_static range buffer.old (writer_in state.old) value) state.old buffer.old }
{
    if state.len() < WRITER_WORDS {
        return NO_ROOM;
    }
    let written = writer_in(state).write_static(buffer, range, value);
    answer(written, state)
}

// A plain value whose bytes are no width is refused as a value in an empty range is.
fn written_plain(w: Writer, buffer: &mut [u8], bytes: u32, value: u32) -> Result<Writer, Fault>
    ensures { written_given w result buffer.new ≡ write_bytes bytes buffer.old w value }
{
    match Width::try_from(bytes) {
        Ok(width) => w.write_plain(buffer, width, value),
        Err(_) => w.write_static(buffer, 0, value),
    }
}

// Writes a plain value of 1, 2 or 4 bytes.
pub fn oysterfold_write_plain(state: &mut [u64], buffer: &mut [u8], bytes: u32, value: u32) -> u32
    ensures { handed result state.new buffer.new ≡ written_into (shorter writer_length state.old) (write_bytes bytes buffer.old (writer_in state.old) value) state.old buffer.old }
{
    if state.len() < WRITER_WORDS {
        return NO_ROOM;
    }
    let written = written_plain(writer_in(state), buffer, bytes, value);
    answer(written, state)
}

// Writes a value in a dynamic context.
pub fn oysterfold_write_dynamic(
    state: &mut [u64],
    buffer: &mut [u8],
    histogram: &mut [u32],
    value: u32,
) -> u32
    ensures buffer_after { handed result state.new buffer.new ≡ written_into (context_short writer_length state.old histogram.old) (write_dynamic (take symbols histogram.old) buffer.old (writer_in state.old) value) state.old buffer.old }
    ensures histogram_after { histogram.new ≡ histogram_into (context_short writer_length state.old histogram.old) (written_histogram (take symbols histogram.old) buffer.old (writer_in state.old) value) histogram.old }
{
    if state.len() < WRITER_WORDS {
        return NO_ROOM;
    }
    let Some(frequencies) = histogram.first_chunk_mut::<SYMBOLS>() else {
        return NO_ROOM;
    };
    let written = writer_in(state).write_dynamic(buffer, frequencies, value);
    answer(written, state)
}

// The number of an end, its bytes used told; where the number is 0 the state after it is stored.
fn end_answer(ended: Result<Ended, Fault>, state: &mut [u64], res: &mut [u64]) -> u32
    requires { (writer_length ≤ length state.old) × (result_words ≤ length res.old) }
    ensures { (w : State) (bytes : List ℕ) → (handed result state.new bytes ≡ handed_by (end_write (ended_given w ended bytes)) state.old)
        × (res.new ≡ value_told (ended_given w ended bytes).used res.old) }
{
    match ended {
        Err(fault) => unplaced(res, fault),
        Ok(end) => {
            put_writer(state, end.writer);
            tell(res, Ok(end.used))
        }
    }
}

// Ends a coded run; result: place, bytes used.
pub fn oysterfold_write_end(state: &mut [u64], buffer: &mut [u8], res: &mut [u64]) -> u32
    ensures buffer_after { handed result state.new buffer.new ≡ written_into (shorter result_words res.old || shorter writer_length state.old) (end_write (end buffer.old (writer_in state.old))) state.old buffer.old }
    ensures res_after { res.new ≡ used_into (shorter writer_length state.old) (end buffer.old (writer_in state.old)) res.old }
{
    if res.len() < RESULT_WORDS {
        return NO_ROOM;
    }
    if state.len() < WRITER_WORDS {
        return unplaced(res, Fault::NoRoom);
    }
    let ended = writer_in(state).finish(buffer);
    end_answer(ended, state, res)
}
