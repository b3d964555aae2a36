// The lines of the text one after the other: rows of one form, steps, and the whole text.
ghost use Rattle.std.specs.Prelude.{◌≡◌, ◌+◌, ◌*◌, ◌≤◌, drop, length};
ghost use Rattle.fields.specs.Limits.{most_steps};
ghost use Rattle.fields.specs.Judged.{given};
ghost use Rattle.climb.specs.Climb.{climb_of, rows_from, step_from, steps_from};
ghost use Rattle.climb.specs.Inside.{PlaceWithin, TakenWithin, Within, end_from, form_of, place_given, stored, stored_text, taken_given, text_given};

use crate::line::FieldRule::{Decimal, Pattern};
use crate::line::{FieldRule, Form, Place, bad_line, read_row, starts_with};
use fields::limits::{LARGEST_COUNT, LARGEST_U32, MOST_MOVES, MOST_NEW_FACES, MOST_STEPS};
use fields::refusal::Refusal;
use fields::words::put;

// Any number below 2^32.
const ANY: FieldRule = Decimal {
    least: 0,
    most: LARGEST_U32,
};

const VERSION: FieldRule = Decimal { least: 1, most: 1 };

const COUNT: FieldRule = Decimal {
    least: 0,
    most: LARGEST_COUNT,
};

const CORNER: FieldRule = Decimal { least: 0, most: 2 };

// The forms of the lines.
const HEAD: Form = Form {
    word: b"climb",
    rules: &[VERSION, COUNT, COUNT],
};

const SPLIT: Form = Form {
    word: b"split",
    rules: &[ANY, Pattern, Pattern, Pattern],
};

const MOVE: Form = Form {
    word: b"move",
    rules: &[ANY, CORNER],
};

const FACE: Form = Form {
    word: b"face",
    rules: &[ANY, ANY, ANY, ANY],
};

// How many rows or steps were read, and the place after them.
#[derive(Clone, Copy, Debug, PartialEq, Eq)]
pub struct Taken {
    pub count: u32,
    pub next: Place,
}

// Reads the lines of that form, at most so many.
fn read_rows(
    text: &[u8],
    from: Place,
    form: Form,
    most: u32,
    table: &mut [u32],
) -> Result<Taken, Refusal>
    requires { (length form.rules.now ≤ 4) × (most ≤ 0x100) × Within text.now 0x800000 0x800000 from }
    ensures table_after { taken_given text.now result table.new
        ≡ stored 0 table.old from.to (rows_from (form_of form.entry) most from.line (drop from.at text.now)) }
    ensures taken_within { TakenWithin text.now (from.line + most) (from.to + 4 * most) result }
{
    let mut next = from;
    for count in 0..most {
        if !starts_with(text, next.at, form.word) {
            return Ok(Taken { count, next });
        }
        next = read_row(text, next, form, table)?;
    }
    if starts_with(text, next.at, form.word) {
        return Err(bad_line(next.line));
    }
    Ok(Taken { count: most, next })
}

// Reads a step: its split, its moves, its new faces. How many there are of each stands before them in the table. It has at most 129 lines;
// four words for each row are 518 at most.
fn read_step(text: &[u8], from: Place, table: &mut [u32]) -> Result<Place, Refusal>
    requires { Within text.now 0x700000 0x700000 from }
    ensures table_after { place_given text.now result table.new ≡ stored 0 table.old from.to (step_from from.line (drop from.at text.now)) }
    ensures place_within { PlaceWithin text.now (from.line + 129) (from.to + 518) result }
{
    let split = read_row(text, from, SPLIT, table)?;
    let first = Place {
        to: from.to + 6,
        ..split
    };
    let moves = read_rows(text, first, MOVE, MOST_MOVES, table)?;
    let faces = read_rows(text, moves.next, FACE, MOST_NEW_FACES, table)?;
    put(table, from.to + 4, moves.count);
    put(table, from.to + 5, faces.count);
    Ok(faces.next)
}

// Reads the steps, at most `most`.
// Kept: the loop stands beside that of rows, since one loop over both would need a trait with the bounds of each and is no plainer.
fn read_steps(text: &[u8], from: Place, most: u32, table: &mut [u32]) -> Result<Taken, Refusal>
    requires { (most ≤ most_steps) × Within text.now 2 3 from }
    ensures table_after { taken_given text.now result table.new
        ≡ stored 0 table.old from.to (steps_from most from.line (drop from.at text.now)) }
    ensures taken_within { TakenWithin text.now 0x700000 0x700000 result }
{
    let mut next = from;
    for count in 0..most {
        if !starts_with(text, next.at, SPLIT.word) {
            return Ok(Taken { count, next });
        }
        next = read_step(text, next, table)?;
    }
    if starts_with(text, next.at, SPLIT.word) {
        return Err(bad_line(next.line));
    }
    Ok(Taken { count: most, next })
}

// Reads the last line, which counts the steps, and sees that none is after it. How many words the text comes to.
fn read_end(text: &[u8], from: Place, steps: u32) -> Result<usize, Refusal>
    requires { Within text.now 0x700000 0x700000 from }
    ensures { given result ≡ end_from steps from.line (drop from.at text.now) from.to }
{
    let end = Form {
        word: b"end",
        rules: &[Decimal {
            least: steps,
            most: steps,
        }],
    };
    let mut counted = [0u32; 1];
    let next = read_row(text, Place { to: 0, ..from }, end, &mut counted)?;
    if next.at < text.len() {
        return Err(bad_line(next.line));
    }
    Ok(from.to)
}

// Reads the whole text into `table`, as far as there is room. How many words it comes to.
pub(crate) fn read_text(text: &[u8], table: &mut [u32]) -> Result<usize, Refusal>
    ensures { text_given result table.new ≡ stored_text table.old (climb_of text.now) }
{
    let mut head = [0u32; 3];
    let start = Place {
        at: 0,
        line: 1,
        to: 0,
    };
    let first = read_row(text, start, HEAD, &mut head)?;
    put(table, 0, head[1]);
    put(table, 1, head[2]);
    let steps = read_steps(text, Place { to: 3, ..first }, MOST_STEPS, table)?;
    put(table, 2, steps.count);
    read_end(text, steps.next, steps.count)
}
