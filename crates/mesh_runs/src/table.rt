// Tables that are lent to a call.

// What every word holds before a call.
const FILL: u32 = 0xA5A5A5A5;

// The part of a table that is lent, filled; the empty part where the table is shorter.
// Kept: two programs have this; a public function that lends on needs clauses over loans, and is no plainer.
pub(crate) fn lent(table: &mut [u32], length: usize) -> &mut [u32] {
    if table.len() < length {
        return &mut table[..0];
    }
    table[..length].fill(FILL);
    &mut table[..length]
}

fn mixed(sum: u32, word: u32) -> u32 {
    sum.wrapping_mul(16777619).wrapping_add(word)
}

// A checksum over all words.
pub(crate) fn checksum(table: &[u32]) -> u32 {
    table.iter().fold(2166136261, |sum, word| mixed(sum, *word))
}
