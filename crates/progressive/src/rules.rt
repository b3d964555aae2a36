// What the numbers of a step allow (14).
ghost use Rattle.std.specs.Prelude.{◌≡◌, ◌+◌, ◌*◌, ◌≤◌, true, ◌&&◌, length, ◌==◌, slice_index};
ghost use Rattle.fields.specs.All.{all};
ghost use Rattle.progressive.specs.StepTable.{move_words, new_face_at, new_face_words, step_formed, step_words};
ghost use Rattle.progressive.specs.Rules.{move_numbers, new_face_allowed, new_face_numbers, numbers_allowed, other_corner, other_position, split_and_other, split_triangle};
ghost use Rattle.progressive.specs.Inside.{MoveNames};

use crate::step::{MOVE_WORDS, NEW_FACE_WORDS, STEP_WORDS, Step};

// A position below r other than s.
#[tactic(auto, unfolding(crate::specs::Rules::other_position))]
fn other_position(r: usize, s: usize, p: usize) -> bool
    ensures { result ≡ other_position r s p }
{
    p < r && p != s
}

// The split position s and another, in either order.
#[tactic(auto, unfolding(crate::specs::Rules::split_and_other))]
fn split_and_other(r: usize, s: usize, a: usize, b: usize) -> bool
    ensures { result ≡ split_and_other r s a b }
{
    if a == s {
        other_position(r, s, b)
    } else {
        b == s && other_position(r, s, a)
    }
}

// The new position r, the split position s and another, in any order.
#[tactic(auto, unfolding(crate::specs::Rules::split_triangle))]
fn split_triangle(r: usize, s: usize, a: usize, b: usize, c: usize) -> bool
    ensures { result ≡ split_triangle r s a b c }
{
    if a == r {
        split_and_other(r, s, b, c)
    } else if b == r {
        split_and_other(r, s, a, c)
    } else {
        c == r && split_and_other(r, s, a, b)
    }
}

// The move at an index of the table names this corner.
fn names_corner(steps: &[u32], at: usize, face: u32, corner: u32) -> bool
    requires { at + move_words ≤ length steps.now }
    ensures { result ≡ (face == slice_index steps.now at && corner == slice_index steps.now (at + 1)) }
{
    face == steps[at] && corner == steps[at + 1]
}

// No move before move i names its corner, this one.
fn corner_free(step: Step, i: usize, face: u32, corner: u32) -> bool
    requires { MoveNames step.table.now step.at i face corner }
    ensures { result ≡ all (other_corner step.entry.table.now step.entry.at i) i }
{
    let first = step.at + STEP_WORDS;
    (0..i).all(
        |j|
            requires { first + move_words * (j + 1) ≤ length step.table.now }
        { !names_corner(step.table, first + MOVE_WORDS * j, face, corner) },
    )
}

// Move i names a face below the count, and a corner that no earlier move names.
#[tactic(auto, using(crate::proofs::Allowing::move_named), unfolding(crate::specs::Rules::move_numbers))]
fn move_allowed(step: Step, faces: usize, i: usize) -> bool
    requires { step.at + step_words + move_words * (i + 1) ≤ length step.table.now }
    ensures { result ≡ move_numbers step.entry.table.now step.entry.at faces i }
{
    let at = step.at + STEP_WORDS + MOVE_WORDS * i;
    let face = step.table[at];
    (face as usize) < faces && corner_free(step, i, face, step.table[at + 1])
}

fn moves_allowed(step: Step, faces: usize, count: usize) -> bool
    requires { step.at + step_words + move_words * count ≤ length step.table.now }
    ensures { result ≡ all (move_numbers step.entry.table.now step.entry.at faces) count }
{
    (0..count).all(
        |i|
            requires { step.at + step_words + move_words * (i + 1) ≤ length step.table.now }
        { move_allowed(step, faces, i) },
    )
}

// The new face that is described at an index of the table.
#[tactic(auto, unfolding(crate::specs::Rules::new_face_allowed))]
fn new_face_allowed(steps: &[u32], at: usize, shadings: usize, r: usize, s: usize) -> bool
    requires { at + new_face_words ≤ length steps.now }
    ensures { result ≡ new_face_allowed steps.now at shadings r s }
{
    (steps[at] as usize) < shadings
        && split_triangle(
            r,
            s,
            steps[at + 1] as usize,
            steps[at + 2] as usize,
            steps[at + 3] as usize,
        )
}

fn new_faces_allowed(step: Step, shadings: usize, r: usize, count: usize) -> bool
    requires { new_face_at step.table.now step.at count ≤ length step.table.now }
    ensures { result ≡ all (new_face_numbers step.entry.table.now step.entry.at shadings r) count }
{
    let s = step.split() as usize;
    let first = step.new_face_at(0);
    (0..count).all(
        |j|
            requires { first + new_face_words * (j + 1) ≤ length step.table.now }
        { new_face_allowed(step.table, first + NEW_FACE_WORDS * j, shadings, r, s) },
    )
}

// The number rules of a step, with so many faces and r positions present.
#[tactic(auto, using(crate::proofs::Formed::formed), unfolding(crate::specs::Rules::numbers_allowed))]
pub(crate) fn numbers_allowed(step: Step, shadings: usize, faces: usize, r: usize) -> bool
    requires { step_formed step.table.now step.at ≡ true }
    ensures { result ≡ numbers_allowed step.entry.table.now step.entry.at shadings faces r }
{
    (step.split() as usize) < r
        && moves_allowed(step, faces, step.move_count())
        && new_faces_allowed(step, shadings, r, step.new_face_count())
}
