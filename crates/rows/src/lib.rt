// Rows of a walk's table, and the declaration that a base mesh goes with.
#![tactic(auto)]

ghost use Rattle.std.specs.Prelude.{◌≡◌, ◌<◌, eqb};
ghost use Rattle.blocks.specs.Told.{row_width};
ghost use Rattle.rows.specs.Rows.{base_mesh, declared_below, declared_for, declared_given, declared_of, declares, has_name, word_in};

use blocks::parts::{data_bounds, data_part};
use blocks::tell::ROW_WIDTH;
use fields::field::bytes_at;
use fields::limits::LARGEST_FILE;
use fields::name::{is_same, name_size};
use fields::refusal::Fault;
use mesh::declaration::mesh_name;

// Block types.
const MESH_DECLARATION: u32 = 0xFFFFFF31;

const BASE_MESH: u32 = 0xFFFFFF3B;

// A word of a row, 0 where the table has no such row.
fn word_in(table: &[u32], row: usize, i: usize) -> u32
    requires { i < row_width }
    ensures { result ≡ word_in table.now row i }
{
    if row < table.len() / ROW_WIDTH {
        table[row * ROW_WIDTH + i]
    } else {
        0
    }
}

// The offset of a row's block.
pub fn offset_in(table: &[u32], row: usize) -> usize
    ensures { result ≡ word_in table.now row 0 }
{
    word_in(table, row, 0) as usize
}

// Whether a row's block is a base mesh.
pub fn is_base_mesh(table: &[u32], row: usize) -> bool
    ensures { result ≡ eqb (word_in table.now row 1) base_mesh }
{
    word_in(table, row, 1) == BASE_MESH
}

// Whether the data begins with this name.
fn has_name(s: &[u8], name: &[u8]) -> bool
    ensures { result ≡ has_name s.now name.now }
{
    name_size(s, 0).is_ok() && is_same(mesh_name(s), name)
}

// Kept: file, table and row as parameters, since the promises of `declaration_of` and of what it calls name each.
fn is_declaration(file: &[u8], table: &[u32], row: usize, name: &[u8]) -> bool
    ensures { result ≡ declares file.now table.now name.now row }
{
    word_in(table, row, 1) == MESH_DECLARATION
        && has_name(data_part(file, offset_in(table, row)), name)
}

// The last mesh declaration of this name before a row, inside a chain or not.
fn declaration_before(file: &[u8], table: &[u32], row: usize, name: &[u8]) -> Result<usize, Fault>
    ensures { declared_given result ≡ declared_below file.now table.now name.now row }
{
    for left in (0..row).rev() {
        if is_declaration(file, table, left, name) {
            return Ok(offset_in(table, left));
        }
    }
    Err(Fault::BadName)
}

// The same for the base mesh with those data. Its own name may be cut (1) or too long (8).
fn declaration_named(
    file: &[u8],
    table: &[u32],
    row: usize,
    continuation: &[u8],
) -> Result<usize, Fault>
    ensures { declared_given result ≡ declared_of file.now table.now row continuation.now }
{
    match name_size(continuation, 0) {
        Err(refusal) => Err(refusal.fault),
        Ok(_) => declaration_before(file, table, row, mesh_name(continuation)),
    }
}

// The offset of the declaration of the base mesh in a row: the last before it that has its name. A row past the table is 10, one that is
// no base mesh 11.
pub fn declaration_of(file: &[u8], table: &[u32], row: usize) -> Result<usize, Fault>
    ensures { declared_given result ≡ declared_for file.now table.now row }
{
    if LARGEST_FILE < file.len() {
        return Err(Fault::OverLimit);
    }
    if table.len() / ROW_WIDTH <= row {
        return Err(Fault::OutOfRange);
    }
    if !is_base_mesh(table, row) {
        return Err(Fault::OutOfOrder);
    }
    match data_bounds(file, offset_in(table, row)) {
        Err(e) => Err(e.fault),
        Ok(b) => declaration_named(file, table, row, bytes_at(file, b.at, b.size)),
    }
}
