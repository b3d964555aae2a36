// The file header.
ghost use Rattle.std.specs.Prelude.{◌≡◌};
ghost use Rattle.fields.specs.Judged.{number_of};
ghost use Rattle.oysterfold.specs.Header.{header_in, header_result};

// Reads a file's header; result: place, minor version, profile, declaration size, file size, character encoding, units scaling factor,
// offset of the next block.
#[unsafe(no_mangle)]
pub extern "C" fn oysterfold_header(file: &[u8], res: &mut [u64]) -> u32
    ensures value { result ≡ number_of (header_in file.now res.old) }
    ensures res_after { res.new ≡ header_result (header_in file.now res.old) res.old }
{
    oysterfold::headers::oysterfold_header(file, res)
}
