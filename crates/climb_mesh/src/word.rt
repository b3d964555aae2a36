// The word of calls. A letter is u (up) or d (down): alone it is a call, with a decimal after it a request, and requests that stand
// together are one walk.
ghost use Rattle.std.specs.Prelude.{◌<◌, length, IfSome};

use progressive::refine::Direction;
use std::str;

// As many digits as the largest count has.
const MOST_DIGITS: usize = 10;

// The way that a letter names, and the number after it where there is one.
#[derive(Clone, Copy, Debug, PartialEq, Eq)]
pub struct Ask {
    pub direction: Direction,
    pub count: Option<u32>,
}

// A decimal of at most ten digits; none where it is above 4,294,967,295.
fn decimal(digits: &[u8]) -> Option<u32> {
    if MOST_DIGITS < digits.len() {
        return None;
    }
    str::from_utf8(digits).ok()?.parse().ok()
}

// The letter with which a word begins, with its number, and what follows; none where the word begins with neither u nor d, or the number
// is too large.
pub(crate) fn first_ask(word: &[u8]) -> Option<(Ask, &[u8])>
    ensures { IfSome result (λ asked. length asked.1.now < length word.now) }
{
    let (&letter, after) = word.split_first()?;
    let direction = match letter {
        b'u' => Direction::Up,
        b'd' => Direction::Down,
        _ => return None,
    };
    let digits = after
        .iter()
        .position(|byte| !byte.is_ascii_digit())
        .unwrap_or(after.len());
    let (number, rest) = after.split_at(digits);
    let count = if number.is_empty() {
        None
    } else {
        Some(decimal(number)?)
    };
    Some((Ask { direction, count }, rest))
}

// Whether a word is one letter after the other, each with a number or none.
pub(crate) fn are_calls(word: &[u8]) -> bool {
    let mut rest = word;
    while !rest.is_empty() {
        let Some((_, after)) = first_ask(rest) else {
            return false;
        };
        rest = after;
    }
    true
}

// Whether a walk goes on with what follows.
pub(crate) fn is_walk(word: &[u8]) -> bool {
    first_ask(word).is_some_and(|(ask, _)| ask.count.is_some())
}
