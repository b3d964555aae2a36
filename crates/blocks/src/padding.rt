// Padding bytes, which are all zero.
ghost use Rattle.std.specs.Prelude.{◌≡◌, ◌-◌, ◌≤◌, ◌<◌, length};
ghost use Rattle.fields.specs.Judged.{given};
ghost use Rattle.blocks.specs.Padding.{zeros_of, aligned_to};

use fields::refusal::{Fault, Refusal};

// `size` rounded up to a multiple of 4.
pub(crate) fn aligned(size: usize) -> usize
    requires { size < 1099511627776 }
    ensures { result ≡ aligned_to size }
{
    size.next_multiple_of(4)
}

// Refuses the first byte from `from` up to `to` that is not zero.
pub(crate) fn zeros(s: &[u8], from: usize, to: usize) -> Result<(), Refusal>
    requires { to ≤ length s.now }
    ensures { given result ≡ zeros_of (to - from) s.now from }
{
    for at in from..to {
        if s[at] != 0 {
            return Err(Fault::BadPadding.at(at));
        }
    }
    Ok(())
}
