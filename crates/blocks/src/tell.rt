// What is told of a block: a row of five words in a table, and a line of text, each stored as far as there is room.
ghost use Rattle.std.specs.Prelude.{◌≡◌, ◌*◌, ◌≤◌, length};
ghost use Rattle.std.proofs.lemmas.List.Edits.{sets};
ghost use Rattle.fields.specs.Limits.{largest_file};
ghost use Rattle.blocks.specs.Told.{row_words, line_of, row_width};
ghost use Rattle.blocks.specs.Inside.{bytes_of, told_with};

use fields::words::put;
use text::line::{put_decimal, put_hex, put_word};

// Words of a row.
// Kept: the C interface lends a table of words, so a row is five of them and no struct.
pub const ROW_WIDTH: usize = 5;

// A block's row: its offset, type, data size, meta data size, and its depth from 0.
#[derive(Clone, Copy, Debug, PartialEq, Eq)]
pub struct Row {
    pub offset: u32,
    pub block_type: u32,
    pub data_size: u32,
    pub meta_size: u32,
    pub depth: u32,
}

// What has been told: so many blocks, and so many bytes of text.
#[derive(Clone, Copy, Debug, PartialEq, Eq)]
pub struct Told {
    pub blocks: usize,
    pub bytes: usize,
}

// Stores the row of the block with that number.
fn put_row(table: &mut [u32], blocks: usize, row: Row)
    requires { blocks ≤ largest_file }
    ensures { table.new ≡ sets table.old (blocks * row_width) (row_words row) }
{
    let at = blocks * ROW_WIDTH;
    put(table, at, row.offset);
    put(table, at + 1, row.block_type);
    put(table, at + 2, row.data_size);
    put(table, at + 3, row.meta_size);
    put(table, at + 4, row.depth);
}

// Stores a block's line from `at` on, and answers its length.
fn put_line(text: &mut [u8], at: usize, row: Row) -> usize
    requires { at ≤ 9 * largest_file }
    ensures value { result ≡ length (line_of row) }
    ensures text_after { text.new ≡ sets text.old at (line_of row) }
{
    let mut end = at + put_word(text, at, b"block\t");
    end += put_decimal(text, end, u64::from(row.offset), b'\t');
    end += put_hex(text, end, row.block_type, b'\t');
    end += put_decimal(text, end, u64::from(row.data_size), b'\t');
    end += put_decimal(text, end, u64::from(row.meta_size), b'\t');
    end += put_decimal(text, end, u64::from(row.depth), b'\n');
    end - at
}

// Tells a block: its row, and with `lines` its line.
pub(crate) fn tell(table: &mut [u32], text: &mut [u8], told: Told, row: Row, lines: bool) -> Told
    requires { (told.blocks ≤ largest_file) × (told.bytes ≤ 9 * largest_file) }
    ensures value { result ≡ told_with lines told row }
    ensures table_after { table.new ≡ sets table.old (told.blocks * row_width) (row_words row) }
    ensures text_after { text.new ≡ sets text.old told.bytes (bytes_of lines row) }
{
    put_row(table, told.blocks, row);
    let size = if lines {
        put_line(text, told.bytes, row)
    } else {
        0
    };
    Told {
        blocks: told.blocks + 1,
        bytes: told.bytes + size,
    }
}
