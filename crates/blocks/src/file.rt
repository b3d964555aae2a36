// The blocks of a whole file, as rows in a table or as lines of text. The file is judged whole first, and then stored.
ghost use Rattle.std.specs.Prelude.{◌≡◌, ◌≤◌, length};
ghost use Rattle.fields.specs.Limits.{largest_file};
ghost use Rattle.fields.specs.Judged.{given, buffer_after};
ghost use Rattle.blocks.specs.Inside.{rest_stored, file_stored, answer_of, ToldFits, told_of};
ghost use Rattle.blocks.specs.File.{file_words, walk_in, file_lines, lines_of, lines_in};

use crate::block::LEVELS;
use crate::chain::Run;
use crate::header::{First, first_block};
use crate::tell::{ROW_WIDTH, Told, tell};
use crate::walk::{row_of, walk};
use fields::refusal::{Fault, Refusal};

// Walks the blocks of a file from its first block on, and tells them as far as there is room.
fn walk_after(
    file: &[u8],
    first: First,
    table: &mut [u32],
    text: &mut [u8],
    lines: bool,
) -> Result<Told, Refusal>
    requires { (12 ≤ first.next) × (first.next ≤ length file.now) × (length file.now ≤ largest_file) }
    ensures result_value { given result ≡ answer_of (rest_stored table.old text.old lines file.now first) }
    ensures table_after { table.new ≡ (rest_stored table.old text.old lines file.now first).table }
    ensures text_after { text.new ≡ (rest_stored table.old text.old lines file.now first).text }
    ensures told_fits { ToldFits largest_file (given result) }
{
    let none = Told {
        blocks: 0,
        bytes: 0,
    };
    let told = tell(table, text, none, row_of(0, first.head, LEVELS), lines);
    let run = Run {
        at: first.next,
        count: file.len() as u32,
    };
    walk(file, run, LEVELS, table, text, told, lines)
}

// Walks a file, and tells its blocks as far as there is room.
fn walk_file(file: &[u8], table: &mut [u32], text: &mut [u8], lines: bool) -> Result<Told, Refusal>
    ensures result_value { given result ≡ answer_of (file_stored table.old text.old lines file.now) }
    ensures table_after { table.new ≡ (file_stored table.old text.old lines file.now).table }
    ensures text_after { text.new ≡ (file_stored table.old text.old lines file.now).text }
    ensures told_fits { ToldFits largest_file (given result) }
{
    let first = first_block(file)?;
    walk_after(file, first, table, text, lines)
}

// Walks a file and stores nothing: how many blocks there are, and with `lines` how many bytes their lines take.
fn measured(file: &[u8], lines: bool) -> Result<Told, Refusal>
    ensures result_value { given result ≡ told_of lines file.now }
    ensures told_fits { ToldFits largest_file (given result) }
{
    walk_file(file, &mut [], &mut [], lines)
}

// Walks the blocks of a file: a row of five words for each goes to the table, a chain before its contents. A refusal leaves the
// table as it was.
pub fn walk_blocks(file: &[u8], table: &mut [u32]) -> Result<usize, Refusal>
    ensures result_value { given result ≡ walk_in file.now table.old }
    ensures table_after { table.new ≡ buffer_after (walk_in file.now table.old) (file_words file.now) table.old }
{
    let told = measured(file, false)?;
    if table.len() < told.blocks * ROW_WIDTH {
        return Err(Fault::NoRoom.at(0));
    }
    let told = walk_file(file, table, &mut [], false)?;
    Ok(told.blocks)
}

// How many blocks a file has, and how many bytes their lines take.
pub fn lines_size(file: &[u8]) -> Result<Told, Refusal>
    ensures { given result ≡ lines_of file.now }
{
    measured(file, true)
}

// Puts a line of text for each block of a file at the start of `text`, a chain before its contents. A refusal leaves the text as it
// was.
pub fn put_lines(file: &[u8], text: &mut [u8]) -> Result<Told, Refusal>
    ensures result_value { given result ≡ lines_in file.now text.old }
    ensures text_after { text.new ≡ buffer_after (lines_in file.now text.old) (file_lines file.now) text.old }
{
    let told = lines_size(file)?;
    if text.len() < told.bytes {
        return Err(Fault::NoRoom.at(0));
    }
    walk_file(file, &mut [], text, true)
}
