// Strings (a U16 length, then as many bytes), and names, which are strings of at most 255 bytes.
ghost use Rattle.std.specs.Prelude.{◌≡◌};
ghost use Rattle.fields.specs.Field.{field_given};
ghost use Rattle.fields.specs.Judged.{given};
ghost use Rattle.fields.specs.Name.{string_at, name_at, name_bounds, name_part, same};

use crate::bounds::{Bounds, part_of};
use crate::field::{field_at, passes};
use crate::limits::LONGEST_NAME;
use crate::refusal::{Fault, Refusal};

// How many bytes follow the length of the string at `at`; none where the bytes end before it does.
pub fn string_size(s: &[u8], at: usize) -> Option<usize>
    ensures { field_given (λ size. size) at result ≡ string_at s.now at }
{
    let size = usize::from(field_at::<u16>(s, at)?);
    if passes(s.len(), at, size + 2) {
        None
    } else {
        Some(size)
    }
}

// How many bytes follow the length of the name at `at`.
pub fn name_size(s: &[u8], at: usize) -> Result<usize, Refusal>
    ensures { given result ≡ name_at s.now at }
{
    let Some(size) = string_size(s, at) else {
        return Err(Refusal {
            fault: Fault::Truncated,
            place: at,
        });
    };
    if LONGEST_NAME < size {
        Err(Refusal {
            fault: Fault::BadName,
            place: at,
        })
    } else {
        Ok(size)
    }
}

// Where the bytes of the name at `at` stand.
pub fn name_bounds(s: &[u8], at: usize) -> Result<Bounds, Refusal>
    ensures { given result ≡ name_bounds s.now at }
{
    let size = name_size(s, at)?;
    Ok(Bounds { at: at + 2, size })
}

// The bytes of the name at `at`, as a part of `s`; the empty part where there is no name.
pub fn name_part(s: &[u8], at: usize) -> &[u8]
    ensures { result.now ≡ name_part s.now at }
{
    part_of(s, name_bounds(s, at))
}

// Whether two names are the same, byte by byte.
pub fn is_same(a: &[u8], b: &[u8]) -> bool
    ensures { result ≡ same a.now b.now }
{
    a == b
}
