// A stored file: a U32 that is 1 where both parts are to be cut, the lengths of the six tables and of the declaration's data; then
// that data, and to the end the continuation's data.
use fields::field::{bytes_at, field_at};

const HEAD_SIZE: usize = 32;

// The lengths of the tables, in numbers.
#[derive(Clone, Copy, Debug, PartialEq, Eq)]
pub struct Lengths {
    pub faces: usize,
    pub positions: usize,
    pub normals: usize,
    pub diffuse: usize,
    pub specular: usize,
    pub texture: usize,
}

// The data of both parts, and the lengths of the tables that are lent for them.
#[derive(Clone, Copy)]
pub struct Pair<'a> {
    pub declaration: &'a [u8],
    pub continuation: &'a [u8],
    pub lengths: Lengths,
}

fn number_at(file: &[u8], at: usize) -> usize {
    field_at::<u32>(file, at).unwrap_or(0) as usize
}

// Whether both parts are to be cut at every length.
pub(crate) fn has_cuts(file: &[u8]) -> bool {
    number_at(file, 0) == 1
}

fn lengths_of(file: &[u8]) -> Lengths {
    Lengths {
        faces: number_at(file, 4),
        positions: number_at(file, 8),
        normals: number_at(file, 12),
        diffuse: number_at(file, 16),
        specular: number_at(file, 20),
        texture: number_at(file, 24),
    }
}

fn declaration_of(file: &[u8]) -> &[u8] {
    bytes_at(file, HEAD_SIZE, number_at(file, 28))
}

// What follows the declaration's data; empty where the file ends before it does.
fn continuation_of(file: &[u8]) -> &[u8] {
    let size = number_at(file, 28);
    if file.len() < HEAD_SIZE || file.len() - HEAD_SIZE < size {
        return &[];
    }
    &file[HEAD_SIZE + size..]
}

pub(crate) fn pair_of(file: &[u8]) -> Pair<'_> {
    Pair {
        declaration: declaration_of(file),
        continuation: continuation_of(file),
        lengths: lengths_of(file),
    }
}

// Whether tables of these lengths can be lent.
pub(crate) fn are_within(lengths: Lengths, faces: usize, pool: usize) -> bool {
    lengths.faces <= faces
        && lengths.positions <= pool
        && lengths.normals <= pool
        && lengths.diffuse <= pool
        && lengths.specular <= pool
        && lengths.texture <= pool
}
