// The listing of a file's blocks.
ghost use Rattle.std.specs.Prelude.{◌≡◌};
ghost use Rattle.fields.specs.Judged.{buffer_after, number_of};
ghost use Rattle.fields.specs.Limits.{largest_file};
ghost use Rattle.listing.specs.Listing.{listing_of, written};
ghost use Rattle.oysterfold.specs.Result.{answer_in, result_of};

use crate::result::{NO_ROOM, RESULT_WORDS, tell};
use fields::limits::LARGEST_FILE;
use listing::list_file;

// Puts the listing of a file of at most 16 MiB at the start of `text`; a file that is refused is listed too. Result: place, number
// of bytes.
pub fn oysterfold_listing(file: &[u8], text: &mut [u8], res: &mut [u64]) -> u32
    ensures value { result ≡ number_of (answer_in res.old (written (listing_of largest_file file.now) text.old)) }
    ensures text_after { text.new ≡ buffer_after (answer_in res.old (written (listing_of largest_file file.now) text.old)) (listing_of largest_file file.now) text.old }
    ensures res_after { res.new ≡ result_of (written (listing_of largest_file file.now) text.old) res.old }
{
    if res.len() < RESULT_WORDS {
        return NO_ROOM;
    }
    tell(res, list_file(file, LARGEST_FILE, text))
}
