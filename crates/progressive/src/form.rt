// The form of a step table. The marks of its steps are noted on the way.
ghost use Rattle.std.specs.Prelude.{◌≡◌, ◌+◌, ◌*◌, ◌<◌, ◌≤◌, true, ◌&&◌, length, ◌==◌};
ghost use Rattle.fields.specs.All.{all};
ghost use Rattle.fields.specs.Limits.{largest_count, most_moves, most_steps};
ghost use Rattle.progressive.specs.StepTable.{base_faces, corner_formed, head_words, move_words, step_count, step_formed, step_formed_at, step_offset, step_words, well_formed};
ghost use Rattle.progressive.specs.Marks.{Noted, with_mark};

use crate::step::{MOVE_WORDS, NEW_FACE_WORDS, STEP_WORDS, Step};
use crate::words::number;
use fields::limits;

// The limits, as sizes.
pub(crate) const LARGEST_COUNT: usize = limits::LARGEST_COUNT as usize;

const MOST_STEPS: usize = limits::MOST_STEPS as usize;

const MOST_MOVES: usize = limits::MOST_MOVES as usize;

const MOST_NEW_FACES: usize = limits::MOST_NEW_FACES as usize;

// The words before the first step.
pub(crate) const HEAD_WORDS: usize = 3;

// The steps from one mark to the next.
pub(crate) const MARK_STEPS: usize = 16;

// A step of a list: its offset, and the number of faces before it.
#[derive(Clone, Copy, Debug, PartialEq, Eq)]
pub struct StepSpot {
    pub offset: usize,
    pub faces: usize,
}

// Every move names one of three corners.
fn corners_formed(step: Step, count: usize) -> bool
    requires { step.at + step_words + move_words * count ≤ length step.table.now }
    ensures { result ≡ all (corner_formed step.entry.table.now step.entry.at) count }
{
    (0..count).all(
        |i|
            requires { step.at + step_words + move_words * (i + 1) ≤ length step.table.now }
        { step.table[step.at + STEP_WORDS + 1 + MOVE_WORDS * i] <= 2 },
    )
}

// A step lies within the table and keeps the limits.
#[tactic(auto, unfolding(crate::specs::StepTable::step_formed))]
fn step_formed(step: Step) -> bool
    ensures { result ≡ step_formed step.entry.table.now step.entry.at }
{
    let moves = step.move_count();
    let faces = step.new_face_count();
    moves <= MOST_MOVES
        && faces <= MOST_NEW_FACES
        && step.new_face_at(faces) <= step.table.len()
        && corners_formed(step, moves)
}

// Notes step k, if it is a mark.
fn note_step(marks: &mut [StepSpot], k: usize, spot: StepSpot)
    ensures { marks.new ≡ with_mark k spot marks.old }
{
    if k % MARK_STEPS == 0 && k / MARK_STEPS < marks.len() {
        marks[k / MARK_STEPS] = spot;
    }
}

// So many steps are formed, and nothing comes after them; the marks among them are noted on the way.
fn steps_formed(steps: &[u32], count: usize, marks: &mut [StepSpot]) -> bool
    requires { (head_words ≤ length steps.now) × (base_faces steps.now ≤ largest_count) × (count ≤ most_steps) }
    ensures { (result ≡ (all (step_formed_at steps.now) count
        && step_offset steps.now count == length steps.now))
        × (length marks.new ≡ length marks.old)
        × (result ≡ true → Noted steps.now marks.new count) }
{
    let mut offset = HEAD_WORDS;
    let mut faces = number(steps, 1);
    for k in 0..count {
        note_step(marks, k, StepSpot { offset, faces });
        if steps.len() < offset + STEP_WORDS {
            return false;
        }
        let step = Step {
            table: steps,
            at: offset,
        };
        if !step_formed(step) {
            return false;
        }
        let added = step.new_face_count();
        offset = step.new_face_at(added);
        faces += added;
    }
    offset == steps.len()
}

// The whole table has its form (else 13), and its marks are noted, in one pass.
#[tactic(auto, unfolding(crate::specs::StepTable::well_formed))]
pub(crate) fn well_formed(steps: &[u32], marks: &mut [StepSpot]) -> bool
    ensures { (result ≡ well_formed steps.now)
        × (length marks.new ≡ length marks.old)
        × (result ≡ true → Noted steps.now marks.new (step_count steps.now)) }
{
    if steps.len() < HEAD_WORDS
        || LARGEST_COUNT < number(steps, 0)
        || LARGEST_COUNT < number(steps, 1)
        || MOST_STEPS < number(steps, 2)
    {
        return false;
    }
    steps_formed(steps, number(steps, 2), marks)
}
