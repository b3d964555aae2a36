// The block walk.
ghost use Rattle.std.specs.Prelude.{◌≡◌};
ghost use Rattle.fields.specs.Judged.{buffer_after, number_of};
ghost use Rattle.blocks.specs.File.{file_words, walk_in};
ghost use Rattle.oysterfold.specs.Result.{answer_in, result_of};

use crate::result::{NO_ROOM, RESULT_WORDS, tell};
use blocks::file::walk_blocks;

// Walks the blocks of a file into rows of five words; result: place, number of blocks.
// Kept: the export of this name calls it.
pub fn oysterfold_walk(file: &[u8], rows: &mut [u32], res: &mut [u64]) -> u32
    ensures value { result ≡ number_of (answer_in res.old (walk_in file.now rows.old)) }
    ensures rows_after { rows.new ≡ buffer_after (answer_in res.old (walk_in file.now rows.old)) (file_words file.now) rows.old }
    ensures res_after { res.new ≡ result_of (walk_in file.now rows.old) res.old }
{
    if res.len() < RESULT_WORDS {
        return NO_ROOM;
    }
    tell(res, walk_blocks(file, rows))
}
