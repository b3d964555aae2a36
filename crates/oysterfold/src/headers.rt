// The file header.
ghost use Rattle.std.specs.Prelude.{◌≡◌};
ghost use Rattle.fields.specs.Judged.{done, number_of};
ghost use Rattle.oysterfold.specs.Header.{header_in, header_result, header_words};

use crate::result::{NO_ROOM, put_words};
use blocks::header::{First, first_block};

// Place, and the seven values of a header.
const HEADER_LENGTH: usize = 8;

// The words of a header that is found.
fn header_words(first: First) -> [u64; HEADER_LENGTH]
    ensures { result ≡ header_words (done first) }
{
    let header = first.fields;
    [
        0,
        u64::from(header.minor_version),
        u64::from(header.profile),
        u64::from(header.declaration_size),
        header.file_size,
        u64::from(header.encoding),
        header.units,
        first.next as u64,
    ]
}

// Reads a file's header; result: place, minor version, profile, declaration size, file size, character encoding, units scaling factor,
// offset of the next block.
pub fn oysterfold_header(file: &[u8], res: &mut [u64]) -> u32
    ensures value { result ≡ number_of (header_in file.now res.old) }
    ensures res_after { res.new ≡ header_result (header_in file.now res.old) res.old }
{
    if res.len() < HEADER_LENGTH {
        return NO_ROOM;
    }
    match first_block(file) {
        Ok(first) => {
            put_words(res, &header_words(first));
            0
        }
        Err(e) => {
            put_words(res, &[e.place as u64, 0, 0, 0, 0, 0, 0, 0]);
            u32::from(e.fault)
        }
    }
}
