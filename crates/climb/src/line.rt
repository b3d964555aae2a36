// A line of the text: its first field is a word, and rules judge the numbers after it.
ghost use Rattle.std.specs.Prelude.{◌≡◌, ℕ, ◌≤◌, drop, length};
ghost use Rattle.fields.specs.Numbers.{bad_steps, fault_number};
ghost use Rattle.climb.specs.Climb.{row_taken};
ghost use Rattle.climb.specs.Lines.{field_of, starts_with};
ghost use Rattle.climb.specs.Inside.{FieldsRead, RowWithin, Within, form_of, number_given, place_given, rule_of, rules_of, stored};

use crate::bytes::find;
use crate::digits::{decimal, pattern};
use fields::name::is_same;
use fields::refusal::{Fault, Refusal};
use fields::words::put;

const TAB: u8 = 9;

const LINE_FEED: u8 = 10;

// What a field may hold: a decimal from `least` to `most`, or a bit pattern.
#[derive(Clone, Copy, Debug, PartialEq, Eq)]
pub enum FieldRule {
    Decimal { least: u32, most: u32 },
    Pattern,
}

// A line's first field, and the rules of the numbers after it.
#[derive(Clone, Copy)]
pub struct Form<'a> {
    pub word: &'a [u8],
    pub rules: &'a [FieldRule],
}

// Where reading stands: a line's start in the text, the line's number, and the next word of the table.
#[derive(Clone, Copy, Debug, PartialEq, Eq)]
pub struct Place {
    pub at: usize,
    pub line: usize,
    pub to: usize,
}

// The refusal of a line.
pub(crate) fn bad_line(line: usize) -> Refusal
    ensures { (fault_number result.fault ≡ bad_steps) × (result.place ≡ line) }
{
    Fault::BadSteps.at(line)
}

// The number of a field, judged by a rule.
fn read_field(field: &[u8], rule: FieldRule) -> Option<u32>
    ensures { (line : ℕ) → number_given line result ≡ field_of line (rule_of rule) field.now }
{
    match rule {
        FieldRule::Pattern => pattern(field),
        FieldRule::Decimal { least, most } => {
            let value = decimal(field)?;
            if least <= value && value <= most {
                Some(value)
            } else {
                None
            }
        }
    }
}

// Reads the fields after the first into `table`, as far as there is room. Whether they keep their rules, and none is after them.
fn read_fields(line: &[u8], rules: &[FieldRule], table: &mut [u32], to: usize) -> bool
    requires { (length rules.now ≤ 4) × (to ≤ 0x1000000) }
    ensures { FieldsRead line.now (rules_of rules.now) table.old to result table.new }
{
    let mut at = 0;
    for (i, &rule) in rules.iter().enumerate() {
        let Some(stop) = find(line, at, TAB) else {
            return false;
        };
        at = stop + 1;
        let end = find(line, at, TAB).unwrap_or(line.len());
        let Some(value) = read_field(&line[at..end], rule) else {
            return false;
        };
        put(table, to + i, value);
    }
    find(line, at, TAB).is_none()
}

// Whether a line with that first field starts at `at`.
pub(crate) fn starts_with(text: &[u8], at: usize, word: &[u8]) -> bool
    requires { at ≤ length text.now }
    ensures { result ≡ starts_with word.now (drop at text.now) }
{
    let end = find(text, at, LINE_FEED).unwrap_or(text.len());
    let line = &text[at..end];
    let stop = find(line, 0, TAB).unwrap_or(line.len());
    is_same(&line[..stop], word)
}

// Reads the line of that form into `table`, as far as there is room.
pub(crate) fn read_row(
    text: &[u8],
    from: Place,
    form: Form,
    table: &mut [u32],
) -> Result<Place, Refusal>
    requires { (length form.rules.now ≤ 4) × Within text.now 0x1000000 0x1000000 from }
    ensures table_after { place_given text.now result table.new
        ≡ stored 0 table.old from.to (row_taken (form_of form.entry) from.line (drop from.at text.now)) }
    ensures row_within { RowWithin text.now (length form.entry.rules.now) from result }
{
    let Some(end) = find(text, from.at, LINE_FEED) else {
        return Err(bad_line(from.line));
    };
    if !starts_with(text, from.at, form.word)
        || !read_fields(&text[from.at..end], form.rules, table, from.to)
    {
        return Err(bad_line(from.line));
    }
    Ok(Place {
        at: end + 1,
        line: from.line + 1,
        to: from.to + form.rules.len(),
    })
}
