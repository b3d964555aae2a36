// The climb text, read into a step table (01, "Climbing").
#![tactic(auto)]

mod bytes;
mod digits;
mod line;
mod steps;

ghost use Rattle.std.specs.Prelude.{◌≡◌};
ghost use Rattle.fields.specs.Judged.{given};
ghost use Rattle.climb.specs.Climb.{climb_in, table_after, word_count};

use crate::steps::read_text;
use fields::refusal::{Fault, Refusal};

// Reads a climb text into the table of its steps, and says how many words were written. The text is judged first, so that a refusal
// leaves the table.
pub fn read_climb(text: &[u8], table: &mut [u32]) -> Result<usize, Refusal>
    ensures result_value { given result ≡ word_count (climb_in text.now table.old) }
    ensures table_after { table.new ≡ table_after (climb_in text.now table.old) table.old }
{
    let words = read_text(text, &mut [])?;
    if table.len() < words {
        return Err(Fault::NoRoom.at(0));
    }
    read_text(text, table)
}
