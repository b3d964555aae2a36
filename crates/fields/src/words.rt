// Words of a caller's table, read with zeros past its end, and values stored where there is room.
ghost use Rattle.std.specs.Prelude.{◌≡◌, get_or, set};

// The word at an index, 0 past the table's end.
pub fn word(table: &[u32], i: usize) -> u32
    ensures { result ≡ get_or table.now i 0 }
{
    table.get(i).copied().unwrap_or(0)
}

// Stores a value where there is room.
pub fn put<T: Copy>(table: &mut [T], i: usize, value: T)
    ensures { table.new ≡ set table.old i value }
{
    if i < table.len() {
        table[i] = value;
    }
}
