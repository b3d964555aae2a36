// What the mesh tables show of a step (14 for its corners, 18 for its records).
ghost use Rattle.std.specs.Prelude.{◌≡◌, ◌+◌, ◌*◌, ◌<◌, ◌≤◌, true, length};
ghost use Rattle.fields.specs.Limits.{most_moves};
ghost use Rattle.mesh.specs.Corners.{corner_fields, face_words};
ghost use Rattle.mesh.specs.Base.{position_words};
ghost use Rattle.progressive.specs.Indexed.{always, from, shows};
ghost use Rattle.progressive.specs.StepTable.{coordinate, new_face_at, new_face_count, new_face_words, step_formed};
ghost use Rattle.progressive.specs.Rules.{corner_index};
ghost use Rattle.progressive.specs.Laying.{clear_after, new_face_number, shows_step};
ghost use Rattle.progressive.specs.Inside.{corner_shown, record_shown};

use crate::step::{NEW_FACE_WORDS, Step};
use crate::words::number;
use mesh::faces::{ABSENT, CORNER_FIELDS, FACE_WORDS};
use mesh::tables::POSITION_WORDS;

// In a face's record, where the positions of its three corners stand.
pub(crate) const FIRST_CORNER: usize = 1;

pub(crate) const SECOND_CORNER: usize = 1 + CORNER_FIELDS;

pub(crate) const THIRD_CORNER: usize = 1 + 2 * CORNER_FIELDS;

// Each moved corner holds the value.
pub(crate) fn corners_show(step: Step, value: usize, faces: &[u32], count: usize) -> bool
    requires { count ≤ most_moves }
    ensures { result ≡ shows (corner_index step.entry.table.now step.entry.at) (always value) faces.now count }
{
    (0..count).all(
        |i|
            requires { i ≤ most_moves }
        { number(faces, step.corner_index(i)) == value },
    )
}

// The value at every index from one on. All are looked at, so that many are compared at once.
fn filled(table: &[u32], at: usize, value: u32, count: usize) -> bool
    requires { at + count ≤ length table.now }
    ensures { result ≡ shows (from at) (always value) table.now count }
{
    let mut same = true;
    for word in &table[at..at + count] {
        if *word != value {
            same = false;
        }
    }
    same
}

// A corner's position, its other fields absent.
#[tactic(auto, using(crate::proofs::Laying::corner_parts))]
fn corner_shows(faces: &[u32], at: usize, position: u32) -> bool
    requires { at + corner_fields ≤ length faces.now }
    ensures { result ≡ corner_shown faces.now at position }
{
    faces[at] == position && filled(faces, at + 1, ABSENT, CORNER_FIELDS - 1)
}

// The record of the new face that is described at an index of the table.
#[tactic(auto, using(crate::proofs::Laying::record_parts))]
fn record_shows(steps: &[u32], at: usize, faces: &[u32], start: usize) -> bool
    requires { (at + new_face_words ≤ length steps.now) × (start + face_words ≤ length faces.now) }
    ensures { result ≡ record_shown steps.now at faces.now start }
{
    faces[start] == steps[at]
        && corner_shows(faces, start + FIRST_CORNER, steps[at + 1])
        && corner_shows(faces, start + SECOND_CORNER, steps[at + 2])
        && corner_shows(faces, start + THIRD_CORNER, steps[at + 3])
}

// The records of so many new faces, from an index on.
fn records_show(step: Step, faces: &[u32], at: usize, count: usize) -> bool
    requires { (new_face_at step.table.now step.at count ≤ length step.table.now) × (at + face_words * count ≤ length faces.now) }
    ensures { result ≡ shows (from at) (new_face_number step.entry.table.now step.entry.at) faces.now (face_words * count) }
{
    let first = step.new_face_at(0);
    (0..count).all(
        |j|
            requires described { first + new_face_words * (j + 1) ≤ length step.table.now }
            requires recorded { at + face_words * (j + 1) ≤ length faces.now }
        {
            record_shows(
                step.table,
                first + NEW_FACE_WORDS * j,
                faces,
                at + FACE_WORDS * j,
            )
        },
    )
}

// The new position's coordinates from an index on.
fn coordinates_show(step: Step, positions: &[u32], at: usize, count: usize) -> bool
    requires { (at + count ≤ length positions.now) × (count ≤ position_words) }
    ensures { result ≡ shows (from at) (coordinate step.entry.table.now step.entry.at) positions.now count }
{
    (0..count).all(
        |i|
            requires { (i < position_words) × (at + i < length positions.now) }
        { positions[at + i] == step.coordinate(i) },
    )
}

// Zeros after f faces and r positions, where a step's records go.
#[tactic(auto, unfolding(crate::specs::Laying::clear_after))]
pub(crate) fn room_clear(faces: &[u32], positions: &[u32], added: usize, f: usize, r: usize) -> bool
    requires { (face_words * (f + added) ≤ length faces.now) × (position_words * (r + 1) ≤ length positions.now) }
    ensures { result ≡ clear_after faces.now positions.now added f r }
{
    filled(faces, FACE_WORDS * f, 0, FACE_WORDS * added)
        && filled(positions, POSITION_WORDS * r, 0, POSITION_WORDS)
}

// The tables show all that the step wrote, at f faces and r positions.
#[tactic(auto, using(crate::proofs::Formed::formed), unfolding(crate::specs::Laying::shows_step))]
pub(crate) fn shows_laid(step: Step, faces: &[u32], positions: &[u32], f: usize, r: usize) -> bool
    requires formed { step_formed step.table.now step.at ≡ true }
    requires face_room { face_words * (f + new_face_count step.table.now step.at) ≤ length faces.now }
    requires position_room { position_words * (r + 1) ≤ length positions.now }
    ensures { result ≡ shows_step step.entry.table.now step.entry.at faces.now positions.now f r }
{
    corners_show(step, r, faces, step.move_count())
        && records_show(step, faces, FACE_WORDS * f, step.new_face_count())
        && coordinates_show(step, positions, POSITION_WORDS * r, POSITION_WORDS)
}
