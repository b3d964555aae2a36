// Parts of the caller's bytes: where they start and how many bytes they are, and the bytes themselves.
ghost use Rattle.std.specs.Prelude.{◌≡◌};
ghost use Rattle.fields.specs.Bounds.{part_given};

use crate::field::bytes_at;

// Where a part starts, and how many bytes it has.
#[derive(Clone, Copy, Debug, PartialEq, Eq)]
pub struct Bounds {
    pub at: usize,
    pub size: usize,
}

// The part of `s` with those bounds; the empty part where they were refused, whatever the refusal is.
pub fn part_of<E: Drop>(s: &[u8], answer: Result<Bounds, E>) -> &[u8]
    ensures { result.now ≡ part_given s.now answer }
{
    match answer {
        Err(_) => &s[..0],
        Ok(bounds) => bytes_at(s, bounds.at, bounds.size),
    }
}
