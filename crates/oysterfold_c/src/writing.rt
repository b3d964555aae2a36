// Writing coded numbers.
ghost use Rattle.std.specs.Prelude.{◌≡◌, ◌||◌, take};
ghost use Rattle.coder.specs.Histogram.{symbols};
ghost use Rattle.coder.specs.Writing.{end, fresh_writer, write_dynamic, write_static, written_histogram};
ghost use Rattle.oysterfold.specs.CoderState.{context_short, histogram_into, shorter, writer_in, writer_length, writer_words};
ghost use Rattle.oysterfold.specs.Fresh.{stored, stored_into};
ghost use Rattle.oysterfold.specs.Result.{result_words};
ghost use Rattle.oysterfold.specs.Writing.{end_write, handed, used_into, write_bytes, written_into};

// A fresh writer's state.
#[unsafe(no_mangle)]
pub extern "C" fn oysterfold_writer_fresh(state: &mut [u64]) -> u32
    ensures { stored result state.new ≡ stored_into (writer_words fresh_writer) state.old }
{
    oysterfold::writing::oysterfold_writer_fresh(state)
}

// Writes a value in a static range.
#[unsafe(no_mangle)]
pub extern "C" fn oysterfold_write_static(
    state: &mut [u64],
    buffer: &mut [u8],
    range: u32,
    value: u32,
) -> u32
    ensures { handed result state.new buffer.new ≡ written_into (shorter writer_length state.old) (write_static range buffer.old (writer_in state.old) value) state.old buffer.old }
{
    oysterfold::writing::oysterfold_write_static(state, buffer, range, value)
}

// Writes a plain value of 1, 2 or 4 bytes.
#[unsafe(no_mangle)]
pub extern "C" fn oysterfold_write_plain(
    state: &mut [u64],
    buffer: &mut [u8],
    bytes: u32,
    value: u32,
) -> u32
    ensures { handed result state.new buffer.new ≡ written_into (shorter writer_length state.old) (write_bytes bytes buffer.old (writer_in state.old) value) state.old buffer.old }
{
    oysterfold::writing::oysterfold_write_plain(state, buffer, bytes, value)
}

// Writes a value in a dynamic context.
#[unsafe(no_mangle)]
pub extern "C" fn oysterfold_write_dynamic(
    state: &mut [u64],
    buffer: &mut [u8],
    histogram: &mut [u32],
    value: u32,
) -> u32
    ensures buffer_after { handed result state.new buffer.new ≡ written_into (context_short writer_length state.old histogram.old) (write_dynamic (take symbols histogram.old) buffer.old (writer_in state.old) value) state.old buffer.old }
    ensures histogram_after { histogram.new ≡ histogram_into (context_short writer_length state.old histogram.old) (written_histogram (take symbols histogram.old) buffer.old (writer_in state.old) value) histogram.old }
{
    oysterfold::writing::oysterfold_write_dynamic(state, buffer, histogram, value)
}

// Ends a coded run; result: place, bytes used.
#[unsafe(no_mangle)]
pub extern "C" fn oysterfold_write_end(state: &mut [u64], buffer: &mut [u8], res: &mut [u64]) -> u32
    ensures buffer_after { handed result state.new buffer.new ≡ written_into (shorter result_words res.old || shorter writer_length state.old) (end_write (end buffer.old (writer_in state.old))) state.old buffer.old }
    ensures res_after { res.new ≡ used_into (shorter writer_length state.old) (end buffer.old (writer_in state.old)) res.old }
{
    oysterfold::writing::oysterfold_write_end(state, buffer, res)
}
