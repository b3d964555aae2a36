// A step of a step table. The table has base positions, base faces, step count; then per step the split position, x, y, z, how many moves
// and new faces, a face and a corner for each move, a shading and three positions for each new face.
ghost use Rattle.std.specs.Prelude.{◌≡◌, ◌+◌, ◌^◌, ◌<◌, ◌≤◌, length};
ghost use Rattle.fields.specs.Limits.{most_moves};
ghost use Rattle.mesh.specs.Base.{position_words};
ghost use Rattle.progressive.specs.StepTable.{coordinate, move_corner, move_count, move_face, new_face_at, new_face_count, split_of, step_words};
ghost use Rattle.progressive.specs.Rules.{corner_index};

use crate::words::number;
use mesh::faces::{CORNER_FIELDS, FACE_WORDS};

// In a step, where its coordinates and its counts of moves and new faces stand, and the words before its moves.
const COORDINATES: usize = 1;

const MOVE_COUNT: usize = 4;

const NEW_FACE_COUNT: usize = 5;

pub(crate) const STEP_WORDS: usize = 6;

// The words of a move, and of a new face.
pub(crate) const MOVE_WORDS: usize = 2;

pub(crate) const NEW_FACE_WORDS: usize = 4;

// Kept: a step is read from words, since the C interface lends its table.

// A step: the table that it stands in, and where it starts there; its words before the moves lie within the table.
#[derive(Clone, Copy)]
pub struct Step<'a> {
    pub table: &'a [u32],
    pub at: usize,
    ghost within: { at + step_words ≤ length table.now },
}

impl<'a> Step<'a> {
    // The position that is split.
    pub(crate) fn split(self) -> u32
        ensures { result ≡ split_of self.entry.table.now self.entry.at }
    {
        self.table[self.at]
    }

    // Number i of the new position's coordinates.
    pub(crate) fn coordinate(self, i: usize) -> u32
        requires { i < position_words }
        ensures { result ≡ coordinate self.entry.table.now self.entry.at i }
    {
        self.table[self.at + COORDINATES + i]
    }

    pub(crate) fn move_count(self) -> usize
        ensures { (result ≡ move_count self.entry.table.now self.entry.at) × (result < 2 ^ 32) }
    {
        self.table[self.at + MOVE_COUNT] as usize
    }

    pub(crate) fn new_face_count(self) -> usize
        ensures { (result ≡ new_face_count self.entry.table.now self.entry.at) × (result < 2 ^ 32) }
    {
        self.table[self.at + NEW_FACE_COUNT] as usize
    }

    // The face that move i names.
    fn move_face(self, i: usize) -> usize
        requires { i ≤ most_moves }
        ensures { (result ≡ move_face self.entry.table.now self.entry.at i) × (result < 2 ^ 32) }
    {
        number(self.table, self.at + STEP_WORDS + MOVE_WORDS * i)
    }

    // The corner of it that move i names.
    pub(crate) fn move_corner(self, i: usize) -> usize
        requires { i ≤ most_moves }
        ensures { (result ≡ move_corner self.entry.table.now self.entry.at i) × (result < 2 ^ 32) }
    {
        number(self.table, self.at + STEP_WORDS + 1 + MOVE_WORDS * i)
    }

    // The index, in the faces table, of the position in the corner that move i names.
    #[tactic(auto, unfolding(crate::specs::Rules::corner_index))]
    pub(crate) fn corner_index(self, i: usize) -> usize
        requires { i ≤ most_moves }
        ensures { result ≡ corner_index self.entry.table.now self.entry.at i }
    {
        FACE_WORDS * self.move_face(i) + 1 + CORNER_FIELDS * self.move_corner(i)
    }

    // Where new face j is described in the table; after the last of them the next step starts.
    pub(crate) fn new_face_at(self, j: usize) -> usize
        requires { j < 2 ^ 32 }
        ensures { result ≡ new_face_at self.entry.table.now self.entry.at j }
    {
        self.at + STEP_WORDS + MOVE_WORDS * self.move_count() + NEW_FACE_WORDS * j
    }
}
