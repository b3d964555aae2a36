// The frequencies of a dynamic context. A caller lends a slice, of which they are the first 257 words.
ghost use Rattle.std.specs.Prelude.{◌≡◌, ◌≤◌, length, take};
ghost use Rattle.std.proofs.lemmas.List.Edits.{sets};
ghost use Rattle.coder.specs.Histogram.{fresh_histogram, symbols};
ghost use Rattle.oysterfold.specs.Fresh.{stored, stored_into};

use crate::result::NO_ROOM;
use coder::histogram::{SYMBOLS, fresh_histogram};

// A fresh dynamic context.
pub fn oysterfold_histogram_fresh(histogram: &mut [u32]) -> u32
    ensures { stored result histogram.new ≡ stored_into fresh_histogram histogram.old }
{
    let Some(frequencies) = histogram.first_chunk_mut::<SYMBOLS>() else {
        return NO_ROOM;
    };
    *frequencies = fresh_histogram();
    0
}
