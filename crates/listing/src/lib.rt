// The listing of a file's blocks as text (document 01, "Examples on each side"): a version line, a line a block, an end line.
#![tactic(auto)]

ghost use Rattle.std.specs.Prelude.{◌≡◌, [], length};
ghost use Rattle.std.proofs.lemmas.List.Edits.{sets};
ghost use Rattle.fields.specs.Numbers.{fault_number};
ghost use Rattle.fields.specs.Judged.{done, refused, given};
ghost use Rattle.blocks.specs.File.{file_lines, lines_of};
ghost use Rattle.listing.specs.Listing.{first_line, end_line, file_within, listing_with, listing_of, written, text_after};

use blocks::file::{lines_size, put_lines};
use blocks::tell::Told;
use fields::refusal::{Fault, Refusal};
use text::line::{put_decimal, put_word};

// Bytes of the first line.
const FIRST_SIZE: usize = 9;

// Stores the first line at the start of `text` as far as there is room, and answers its length.
fn put_first(text: &mut [u8]) -> usize
    ensures value { result ≡ length first_line }
    ensures text_after { text.new ≡ sets text.old 0 first_line }
{
    put_word(text, 0, b"blocks\t1\n")
}

// Stores the end line at the start of `text` as far as there is room, and answers its length.
fn put_end(text: &mut [u8], number: u32, blocks: usize) -> usize
    ensures value { result ≡ length (end_line number blocks) }
    ensures text_after { text.new ≡ sets text.old 0 (end_line number blocks) }
{
    let mut size = put_word(text, 0, b"end\t");
    size += put_decimal(text, size, u64::from(number), b'\t');
    size + put_decimal(text, size, blocks as u64, b'\n')
}

// The length of the end line.
fn end_size(number: u32, blocks: usize) -> usize
    ensures { result ≡ length (end_line number blocks) }
{
    put_end(&mut [], number, blocks)
}

// The blocks of a file of at most `limit` bytes.
fn lines_within(file: &[u8], limit: usize) -> Result<Told, Refusal>
    ensures { given result ≡ file_within limit file.now }
{
    if limit < file.len() {
        return Err(Fault::OverLimit.at(0));
    }
    lines_size(file)
}

// The listing of a refused file: its first and last line, count 0.
fn put_refused(text: &mut [u8], e: Refusal) -> Result<usize, Refusal>
    ensures result_value { given result ≡ written (listing_with (refused (fault_number e.fault) e.place) []) text.old }
    ensures text_after { text.new ≡ text_after (listing_with (refused (fault_number e.fault) e.place) []) text.old }
{
    let number = u32::from(e.fault);
    let size = FIRST_SIZE + end_size(number, 0);
    if text.len() < size {
        return Err(Fault::NoRoom.at(0));
    }
    let from = put_first(text);
    put_end(&mut text[from..], number, 0);
    Ok(size)
}

// The listing of a file of which so much is told.
fn put_done(file: &[u8], text: &mut [u8], told: Told) -> Result<usize, Refusal>
    requires { lines_of file.now ≡ done told }
    ensures result_value { given result ≡ written (listing_with (lines_of file.now) (file_lines file.now)) text.old }
    ensures text_after { text.new ≡ text_after (listing_with (lines_of file.now) (file_lines file.now)) text.old }
{
    let lines = FIRST_SIZE + end_size(0, told.blocks);
    if text.len() < lines || text.len() - lines < told.bytes {
        return Err(Fault::NoRoom.at(0));
    }
    let from = put_first(text);
    let end = from + told.bytes;
    put_lines(file, &mut text[from..])?;
    put_end(&mut text[end..], 0, told.blocks);
    Ok(lines + told.bytes)
}

// Puts the listing of a file of at most `limit` bytes at the start of `text`, and answers how many bytes that is; a larger file is
// listed as refused. A text that can't hold the listing stays as it was.
pub fn list_file(file: &[u8], limit: usize, text: &mut [u8]) -> Result<usize, Refusal>
    ensures result_value { given result ≡ written (listing_of limit file.now) text.old }
    ensures text_after { text.new ≡ text_after (listing_of limit file.now) text.old }
{
    match lines_within(file, limit) {
        Err(e) => put_refused(text, e),
        Ok(told) => put_done(file, text, told),
    }
}
