// What a step writes, and how it is taken off.
ghost use Rattle.std.specs.Prelude.{◌≡◌, ℕ, ◌+◌, ◌*◌, ◌<◌, ◌≤◌, length};
ghost use Rattle.fields.specs.Limits.{most_moves};
ghost use Rattle.mesh.specs.Corners.{face_words};
ghost use Rattle.mesh.specs.Base.{position_words};
ghost use Rattle.progressive.specs.Indexed.{always, from, writes};
ghost use Rattle.progressive.specs.StepTable.{coordinate, new_face_at, new_face_words};
ghost use Rattle.progressive.specs.Rules.{corner_index};
ghost use Rattle.progressive.specs.Laying.{laid_faces, undone_faces};
ghost use Rattle.progressive.specs.Inside.{FacesStep, with_record, with_records};

use crate::show::{FIRST_CORNER, SECOND_CORNER, THIRD_CORNER};
use crate::step::{NEW_FACE_WORDS, Step};
use mesh::faces::{ABSENT, FACE_WORDS};

fn write_corners(step: Step, value: u32, faces: &mut [u32], count: usize)
    requires { (count ≤ most_moves) × ((i : ℕ) → i < count → corner_index step.table.now step.at i < length faces.old) }
    ensures { faces.new ≡ writes (corner_index step.entry.table.now step.entry.at) (always value) faces.old count }
{
    for moved in 0..count {
        faces[step.corner_index(moved)] = value;
    }
}

// One value from an index on.
fn fill(table: &mut [u32], at: usize, value: u32, count: usize)
    requires { at + count ≤ length table.old }
    ensures { table.new ≡ writes (from at) (always value) table.old count }
{
    table[at..at + count].fill(value);
}

// The record of the new face that is described at an index of the table, given fields last.
fn write_record(steps: &[u32], at: usize, faces: &mut [u32], start: usize)
    requires { (at + new_face_words ≤ length steps.now) × (start + face_words ≤ length faces.old) }
    ensures { faces.new ≡ with_record steps.now at faces.old start }
{
    fill(faces, start, ABSENT, FACE_WORDS);
    faces[start + THIRD_CORNER] = steps[at + 3];
    faces[start + SECOND_CORNER] = steps[at + 2];
    faces[start + FIRST_CORNER] = steps[at + 1];
    faces[start] = steps[at];
}

// The records of so many new faces, from an index on.
fn write_records(step: Step, faces: &mut [u32], at: usize, count: usize)
    requires { (new_face_at step.table.now step.at count ≤ length step.table.now) × (at + face_words * count ≤ length faces.old) }
    ensures { faces.new ≡ with_records step.entry.table.now step.entry.at faces.old at count }
{
    let first = step.new_face_at(0);
    for j in 0..count {
        write_record(
            step.table,
            first + NEW_FACE_WORDS * j,
            faces,
            at + FACE_WORDS * j,
        );
    }
}

pub(crate) fn write_coordinates(step: Step, positions: &mut [u32], at: usize, count: usize)
    requires { (at + count ≤ length positions.old) × (count ≤ position_words) }
    ensures { positions.new ≡ writes (from at) (coordinate step.entry.table.now step.entry.at) positions.old count }
{
    for i in 0..count {
        positions[at + i] = step.coordinate(i);
    }
}

pub(crate) fn clear(table: &mut [u32], at: usize, count: usize)
    requires { at + count ≤ length table.old }
    ensures { table.new ≡ writes (from at) (always 0) table.old count }
{
    fill(table, at, 0, count);
}

// The step laid on the faces table, at f faces and r positions.
pub(crate) fn lay_faces(step: Step, faces: &mut [u32], f: usize, r: usize)
    requires { FacesStep step.table.now step.at (length faces.old) f r }
    ensures { faces.new ≡ laid_faces step.entry.table.now step.entry.at faces.old f r }
{
    write_corners(step, r as u32, faces, step.move_count());
    write_records(step, faces, FACE_WORDS * f, step.new_face_count());
}

// The step taken off the faces table, at f faces and r positions below it.
pub(crate) fn undo_faces(step: Step, faces: &mut [u32], f: usize, r: usize)
    requires { FacesStep step.table.now step.at (length faces.old) f r }
    ensures { faces.new ≡ undone_faces step.entry.table.now step.entry.at faces.old f }
{
    clear(faces, FACE_WORDS * f, FACE_WORDS * step.new_face_count());
    write_corners(step, step.split(), faces, step.move_count());
}
