// Numbers of a table, as sizes.
ghost use Rattle.std.specs.Prelude.{◌≡◌, ◌^◌, ◌<◌, slice_index};

use fields::words::word;

pub(crate) fn number(table: &[u32], i: usize) -> usize
    ensures { (result ≡ slice_index table.now i) × (result < 2 ^ 32) }
{
    word(table, i) as usize
}
