// Tables that are lent to a call.

// What every word holds before the first call.
const FILL: u32 = 0xA5A5A5A5;

// Stores a word from `at` to the table's end.
pub(crate) fn store_from(table: &mut [u32], at: usize, word: u32) {
    if let Some(rest) = table.get_mut(at..) {
        rest.fill(word);
    }
}

// The part of a room that is a table, filled; the empty part where the room is shorter.
// Kept: two programs have this; a public function that lends on needs clauses over loans, and is no plainer.
pub(crate) fn filled(room: &mut [u32], length: usize) -> &mut [u32] {
    if room.len() < length {
        return &mut room[..0];
    }
    room[..length].fill(FILL);
    &mut room[..length]
}

// The first words of a table; all where there are fewer.
pub(crate) fn lent(table: &mut [u32], length: usize) -> &mut [u32] {
    let end = length.min(table.len());
    &mut table[..end]
}

// Copies a table, as far as the copy has room.
pub(crate) fn copy(table: &[u32], copied: &mut [u32]) {
    let end = table.len().min(copied.len());
    copied[..end].copy_from_slice(&table[..end]);
}

// A checksum over all words.
pub(crate) fn checksum(table: &[u32]) -> u32 {
    table.iter().fold(2166136261, |sum: u32, &word| {
        sum.wrapping_mul(16777619).wrapping_add(word)
    })
}
