// The caller's tables: how many words each is to hold.
ghost use Rattle.std.specs.Prelude.{◌≡◌, ◌*◌, ◌^◌, ◌≤◌, ◌<◌};
ghost use Rattle.mesh.specs.Base.{has_room, held, lengths_of, table_count, words_in};
ghost use Rattle.mesh.specs.Inside.{words_before};

use crate::faces::FACE_WORDS;

// Faces, and the pools of positions, normals, diffuse colors, specular colors and texture coordinates.
pub(crate) const TABLES: usize = 6;

// The place of the faces among them; the pools follow.
pub(crate) const FACES: usize = 0;

// The place of the texture coordinates.
pub(crate) const TEXTURE: usize = 5;

// The pools.
pub(crate) const POOLS: usize = TABLES - 1;

// The caller's tables. Kept: of words, and not of records, since the C interface lends them so.
#[derive(Drop)]
pub struct Tables<'a> {
    pub faces: &'a mut [u32],
    pub positions: &'a mut [u32],
    pub normals: &'a mut [u32],
    pub diffuse: &'a mut [u32],
    pub specular: &'a mut [u32],
    pub texture: &'a mut [u32],
}

impl Tables<'_> {
    pub(crate) fn lengths(&self) -> [usize; TABLES]
        ensures { result ≡ lengths_of (held self.now) }
    {
        [
            self.faces.len(),
            self.positions.len(),
            self.normals.len(),
            self.diffuse.len(),
            self.specular.len(),
            self.texture.len(),
        ]
    }
}

// The words of a position.
pub const POSITION_WORDS: usize = 3;

// The words of an entry in each table.
const WIDTHS: [usize; TABLES] = [FACE_WORDS, POSITION_WORDS, 3, 4, 4, 4];

// The words that table i is to hold.
pub(crate) fn words_in(counts: [u32; TABLES], i: usize) -> usize
    requires { i < table_count }
    ensures { (result ≡ words_in counts i) × (result < 2 ^ 40) }
{
    WIDTHS[i] * (counts[i] as usize)
}

// Whether tables of these lengths have room.
pub(crate) fn has_room(lengths: [usize; TABLES], counts: [u32; TABLES]) -> bool
    ensures { result ≡ has_room lengths counts }
{
    (0..TABLES).all(|i| words_in(counts, i) <= lengths[i])
}

// The words of the first k pools.
pub(crate) fn words_before(counts: [u32; TABLES], k: usize) -> usize
    requires { k < table_count }
    ensures { (result ≡ words_before counts k) × (result ≤ 2 ^ 40 * k) }
{
    let mut sum: usize = 0;
    for i in 0..k {
        sum += words_in(counts, i + 1);
    }
    sum
}
