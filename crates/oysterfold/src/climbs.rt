// Reading a climb text.
ghost use Rattle.std.specs.Prelude.{◌≡◌};
ghost use Rattle.climb.specs.Climb.{climb_in, table_after, word_count};
ghost use Rattle.fields.specs.Judged.{number_of};
ghost use Rattle.oysterfold.specs.Result.{answer_in, result_of};

use crate::result::{NO_ROOM, RESULT_WORDS, tell};
use climb::read_climb;

// Reads a climb text into the table of its steps; result: place (a line), number of words.
// Kept: the export of this name calls it.
pub fn oysterfold_read_climb(text: &[u8], table: &mut [u32], res: &mut [u64]) -> u32
    ensures value { result ≡ number_of (answer_in res.old (word_count (climb_in text.now table.old))) }
    ensures table_after { table.new ≡ table_after (answer_in res.old (climb_in text.now table.old)) table.old }
    ensures res_after { res.new ≡ result_of (word_count (climb_in text.now table.old)) res.old }
{
    if res.len() < RESULT_WORDS {
        return NO_ROOM;
    }
    tell(res, read_climb(text, table))
}
