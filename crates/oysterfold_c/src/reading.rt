// Reading coded numbers.
ghost use Rattle.std.specs.Prelude.{◌≡◌, ◌||◌, true, take};
ghost use Rattle.coder.specs.Histogram.{symbols};
ghost use Rattle.coder.specs.Interval.{fresh};
ghost use Rattle.coder.specs.Reading.{take_dynamic, take_static, taken_histogram};
ghost use Rattle.oysterfold.specs.CoderState.{coder_in, coder_length, coder_words, context_short, histogram_into, shorter};
ghost use Rattle.oysterfold.specs.Fresh.{stored, stored_into};
ghost use Rattle.oysterfold.specs.Reading.{handed, read_into, take_bytes};
ghost use Rattle.oysterfold.specs.Result.{result_words};

// A fresh reader's state.
#[unsafe(no_mangle)]
pub extern "C" fn oysterfold_reader_fresh(state: &mut [u64]) -> u32
    ensures { stored result state.new ≡ stored_into (coder_words fresh) state.old }
{
    oysterfold::reading::oysterfold_reader_fresh(state)
}

// Reads a value in a static range; result: place, value.
#[unsafe(no_mangle)]
pub extern "C" fn oysterfold_read_static(
    state: &mut [u64],
    coded: &[u8],
    range: u32,
    res: &mut [u64],
) -> u32
    ensures { handed result state.new res.new ≡ read_into (shorter coder_length state.old) (take_static true range coded.now (coder_in state.old)) state.old res.old }
{
    oysterfold::reading::oysterfold_read_static(state, coded, range, res)
}

// Reads a plain value of 1, 2 or 4 bytes; result: place, value.
#[unsafe(no_mangle)]
pub extern "C" fn oysterfold_read_plain(
    state: &mut [u64],
    coded: &[u8],
    bytes: u32,
    res: &mut [u64],
) -> u32
    ensures { handed result state.new res.new ≡ read_into (shorter coder_length state.old) (take_bytes bytes coded.now (coder_in state.old)) state.old res.old }
{
    oysterfold::reading::oysterfold_read_plain(state, coded, bytes, res)
}

// Reads a value in a dynamic context; result: place, value.
#[unsafe(no_mangle)]
pub extern "C" fn oysterfold_read_dynamic(
    state: &mut [u64],
    coded: &[u8],
    histogram: &mut [u32],
    res: &mut [u64],
) -> u32
    ensures res_after { handed result state.new res.new ≡ read_into (context_short coder_length state.old histogram.old) (take_dynamic (take symbols histogram.old) coded.now (coder_in state.old)) state.old res.old }
    ensures histogram_after { histogram.new ≡ histogram_into (shorter result_words res.old || context_short coder_length state.old histogram.old) (taken_histogram (take symbols histogram.old) coded.now (coder_in state.old)) histogram.old }
{
    oysterfold::reading::oysterfold_read_dynamic(state, coded, histogram, res)
}
