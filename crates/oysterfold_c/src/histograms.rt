// The frequencies of a dynamic context. A caller lends a slice, of which they are the first 257 words.
ghost use Rattle.std.specs.Prelude.{◌≡◌};
ghost use Rattle.coder.specs.Histogram.{fresh_histogram};
ghost use Rattle.oysterfold.specs.Fresh.{stored, stored_into};

// A fresh dynamic context.
#[unsafe(no_mangle)]
pub extern "C" fn oysterfold_histogram_fresh(histogram: &mut [u32]) -> u32
    ensures { stored result histogram.new ≡ stored_into fresh_histogram histogram.old }
{
    oysterfold::histograms::oysterfold_histogram_fresh(histogram)
}
