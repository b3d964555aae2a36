// One step up, a vertex split, and one step down (01: up, down): judged whole before anything is written.
ghost use Rattle.std.specs.Prelude.{◌≡◌, true, ◌&&◌};
ghost use Rattle.fields.specs.Judged.{done};
ghost use Rattle.progressive.specs.StepTable.{step_formed};
ghost use Rattle.progressive.specs.Mesh.{fits, mesh_of};
ghost use Rattle.progressive.specs.Rules.{allowed_on};
ghost use Rattle.progressive.specs.Laying.{laid, undone};
ghost use Rattle.progressive.specs.Steps.{coarsened, coarsened_by, refined, refined_by, reply, reply_of};
ghost use Rattle.progressive.specs.Requests.{asked_on};
ghost use Rattle.progressive.specs.Inside.{JudgedList, NamesDirection, StepBetween, ask_of, direction_number, judged_of, place_of, verdict_given};

use crate::counts::Counts;
use crate::form::{LARGEST_COUNT, StepSpot};
use crate::lay::{clear, lay_faces, undo_faces, write_coordinates};
use crate::levels::{Place, judge_list, locate};
use crate::list::MarkedList;
use crate::rules::numbers_allowed;
use crate::show::{corners_show, room_clear, shows_laid};
use crate::step::Step;
use crate::words::number;
use fields::refusal::Fault;
use mesh::faces::FACE_WORDS;
use mesh::tables::POSITION_WORDS;

// The way of a step.
#[derive(Clone, Copy, Debug, PartialEq, Eq)]
pub enum Direction {
    Up = 0,
    Down = 1,
}

impl From<Direction> for u32 {
    ghost from_gives = { λ direction number. number ≡ direction_number direction };

    fn from(direction: Direction) -> u32 {
        direction as u32
    }
}

impl TryFrom<u32> for Direction {
    type Error = Fault;

    ghost try_from_gives = { NamesDirection };

    // 9 where a number is neither.
    fn try_from(number: u32) -> Result<Direction, Fault> {
        match number {
            0 => Ok(Direction::Up),
            1 => Ok(Direction::Down),
            _ => Err(Fault::OverLimit),
        }
    }
}

// Kept: tables and counts are parameters of their own, as in the C interface and in each promise, which names every table before and after.

// Tables of these lengths hold so many faces and positions.
#[tactic(auto, unfolding(crate::specs::Mesh::fits))]
fn room_for(face_room: usize, position_room: usize, counts: Counts) -> bool
    ensures { result ≡ fits face_room position_room counts.faces counts.positions }
{
    let faces = counts.faces as usize;
    let positions = counts.positions as usize;
    faces <= LARGEST_COUNT
        && positions <= LARGEST_COUNT
        && FACE_WORDS * faces <= face_room
        && POSITION_WORDS * positions <= position_room
}

// The counts before and after a step both fit.
fn both_fit(face_room: usize, position_room: usize, present: Counts, target: Counts) -> bool
    ensures { result ≡ (fits face_room position_room present.faces present.positions
        && fits face_room position_room target.faces target.positions) }
{
    room_for(face_room, position_room, present) && room_for(face_room, position_room, target)
}

// The step up is allowed at f faces and r positions.
#[tactic(auto, using(crate::proofs::Formed::formed), unfolding(crate::specs::Rules::allowed_on))]
fn refining_allowed(step: Step, shadings: usize, faces: &[u32], f: usize, r: usize) -> bool
    requires { step_formed step.table.now step.at ≡ true }
    ensures { result ≡ allowed_on step.entry.table.now step.entry.at shadings faces.now f r }
{
    numbers_allowed(step, shadings, f, r)
        && corners_show(step, step.split() as usize, faces, step.move_count())
}

// Kept: judging, writing and locating are two functions each, up and down, since the definitions that they promise differ in each test and
// write; one function over the way would choose between the two at each line.

// 12, 14 and 18 for a step up, from the present counts to the target's.
#[tactic(auto, using(crate::proofs::Formed::formed), unfolding(crate::specs::Steps::refined_by))]
fn judge_refining(
    step: Step,
    shadings: usize,
    faces: &[u32],
    positions: &[u32],
    present: Counts,
    target: Counts,
) -> Result<(), Fault>
    requires { StepBetween step.table.now step.at present target }
    ensures { verdict_given result (laid step.entry.table.now step.entry.at (mesh_of faces.now positions.now present))
        ≡ refined_by step.entry.table.now shadings step.entry.at (mesh_of faces.now positions.now present) }
{
    let f = present.faces as usize;
    let r = present.positions as usize;
    if !both_fit(faces.len(), positions.len(), present, target) {
        return Err(Fault::NoRoom);
    }
    if !refining_allowed(step, shadings, faces, f, r) {
        return Err(Fault::NotAllowed);
    }
    if !room_clear(faces, positions, step.new_face_count(), f, r) {
        return Err(Fault::BadState);
    }
    Ok(())
}

// 12, 14 and 18 for a step down, from the present counts to the target's.
#[tactic(auto, using(crate::proofs::Formed::formed), unfolding(crate::specs::Steps::coarsened_by))]
fn judge_coarsening(
    step: Step,
    shadings: usize,
    faces: &[u32],
    positions: &[u32],
    present: Counts,
    target: Counts,
) -> Result<(), Fault>
    requires { StepBetween step.table.now step.at target present }
    ensures { verdict_given result
        (undone step.entry.table.now step.entry.at target.faces target.positions (mesh_of faces.now positions.now present))
        ≡ coarsened_by step.entry.table.now shadings step.entry.at target.faces target.positions
        (mesh_of faces.now positions.now present) }
{
    let f = target.faces as usize;
    let r = target.positions as usize;
    if !both_fit(faces.len(), positions.len(), present, target) {
        return Err(Fault::NoRoom);
    }
    if !numbers_allowed(step, shadings, f, r) {
        return Err(Fault::NotAllowed);
    }
    if !shows_laid(step, faces, positions, f, r) {
        return Err(Fault::BadState);
    }
    Ok(())
}

// The step up, from the present counts to the target's.
fn refine_by(
    step: Step,
    shadings: usize,
    faces: &mut [u32],
    positions: &mut [u32],
    present: Counts,
    target: Counts,
) -> Result<Counts, Fault>
    requires { StepBetween step.table.now step.at present target }
    ensures { reply_of present result faces.new positions.new
        ≡ reply (refined_by step.entry.table.now shadings step.entry.at (mesh_of faces.old positions.old present))
        (mesh_of faces.old positions.old present) }
{
    judge_refining(step, shadings, faces, positions, present, target)?;
    let r = present.positions as usize;
    lay_faces(step, faces, present.faces as usize, r);
    write_coordinates(step, positions, POSITION_WORDS * r, POSITION_WORDS);
    Ok(target)
}

// The step down, from the present counts to the target's.
fn coarsen_by(
    step: Step,
    shadings: usize,
    faces: &mut [u32],
    positions: &mut [u32],
    present: Counts,
    target: Counts,
) -> Result<Counts, Fault>
    requires { StepBetween step.table.now step.at target present }
    ensures { reply_of present result faces.new positions.new
        ≡ reply (coarsened_by step.entry.table.now shadings step.entry.at target.faces target.positions
        (mesh_of faces.old positions.old present))
        (mesh_of faces.old positions.old present) }
{
    judge_coarsening(step, shadings, faces, positions, present, target)?;
    let r = target.positions as usize;
    undo_faces(step, faces, target.faces as usize, r);
    clear(positions, POSITION_WORDS * r, POSITION_WORDS);
    Ok(target)
}

// The step up of a level that was located.
fn refine_at(
    steps: &[u32],
    place: Place,
    shadings: u32,
    faces: &mut [u32],
    positions: &mut [u32],
    counts: Counts,
) -> Result<Counts, Fault>
    requires { done place ≡ place_of steps.now counts.faces counts.positions }
    ensures { reply_of counts result faces.new positions.new
        ≡ reply (refined steps.now shadings (mesh_of faces.old positions.old counts))
        (mesh_of faces.old positions.old counts) }
{
    if place.level == number(steps, 2) {
        return Err(Fault::NoStep);
    }
    let step = Step {
        table: steps,
        at: place.next,
    };
    let target = Counts {
        positions: counts.positions + 1,
        faces: counts.faces + step.new_face_count() as u32,
    };
    refine_by(step, shadings as usize, faces, positions, counts, target)
}

// The step down of a level that was located.
fn coarsen_at(
    steps: &[u32],
    place: Place,
    shadings: u32,
    faces: &mut [u32],
    positions: &mut [u32],
    counts: Counts,
) -> Result<Counts, Fault>
    requires { done place ≡ place_of steps.now counts.faces counts.positions }
    ensures { reply_of counts result faces.new positions.new
        ≡ reply (coarsened steps.now shadings (mesh_of faces.old positions.old counts))
        (mesh_of faces.old positions.old counts) }
{
    if place.level == 0 {
        return Err(Fault::NoStep);
    }
    let step = Step {
        table: steps,
        at: place.last,
    };
    let target = Counts {
        positions: counts.positions - 1,
        faces: counts.faces - step.new_face_count() as u32,
    };
    coarsen_by(step, shadings as usize, faces, positions, counts, target)
}

// One step up or down, in a list that was judged.
pub(crate) fn step_in(
    direction: Direction,
    steps: &[u32],
    list: Result<MarkedList, Fault>,
    shadings: u32,
    faces: &mut [u32],
    positions: &mut [u32],
    counts: Counts,
) -> Result<Counts, Fault>
    requires { JudgedList steps.now list }
    ensures { reply_of counts result faces.new positions.new
        ≡ reply (asked_on steps.now shadings (mesh_of faces.old positions.old counts) (ask_of direction))
        (mesh_of faces.old positions.old counts) }
{
    let place = locate(list?, counts)?;
    match direction {
        Direction::Up => refine_at(steps, place, shadings, faces, positions, counts),
        Direction::Down => coarsen_at(steps, place, shadings, faces, positions, counts),
    }
}

// One step in a list that is judged for it alone: the only mark is the first step.
fn step_once(
    direction: Direction,
    steps: &[u32],
    shadings: u32,
    faces: &mut [u32],
    positions: &mut [u32],
    counts: Counts,
) -> Result<Counts, Fault>
    ensures { reply_of counts result faces.new positions.new
        ≡ reply (asked_on steps.now shadings (mesh_of faces.old positions.old counts) (ask_of direction))
        (mesh_of faces.old positions.old counts) }
{
    let mut marks = [StepSpot {
        offset: 0,
        faces: 0,
    }; 1];
    let list = judge_list(steps, &mut marks);
    step_in(direction, steps, list, shadings, faces, positions, counts)
}

// One step up: the vertex split of the present level. Answers 13, 15, 16, 12, 14 and 18, in that order; a refusal leaves the tables.
pub fn refine(
    steps: &[u32],
    shadings: u32,
    faces: &mut [u32],
    positions: &mut [u32],
    counts: Counts,
) -> Result<Counts, Fault>
    ensures { reply_of counts result faces.new positions.new
        ≡ reply (refined steps.now shadings (mesh_of faces.old positions.old counts)) (mesh_of faces.old positions.old counts) }
{
    step_once(Direction::Up, steps, shadings, faces, positions, counts)
}

// One step down: the vertex split before the present level is undone. Answers as `refine`.
pub fn coarsen(
    steps: &[u32],
    shadings: u32,
    faces: &mut [u32],
    positions: &mut [u32],
    counts: Counts,
) -> Result<Counts, Fault>
    ensures { reply_of counts result faces.new positions.new
        ≡ reply (coarsened steps.now shadings (mesh_of faces.old positions.old counts)) (mesh_of faces.old positions.old counts) }
{
    step_once(Direction::Down, steps, shadings, faces, positions, counts)
}
