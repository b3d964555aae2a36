// Levels of detail: which one the present counts are, and where its steps stand in the table.
ghost use Rattle.std.specs.Prelude.{◌≡◌, ◌+◌, ◌*◌, ◌<◌, ◌≤◌, true, length};
ghost use Rattle.progressive.specs.StepTable.{step_count, well_formed};
ghost use Rattle.progressive.specs.Marks.{AtStep, Marked, mark_steps};
ghost use Rattle.progressive.specs.Inside.{Arrived, JudgedList, judged_of, place_of};

use crate::counts::Counts;
use crate::form::{HEAD_WORDS, MARK_STEPS, StepSpot, well_formed};
use crate::list::MarkedList;
use crate::step::Step;
use crate::words::number;
use fields::refusal::Fault;

// The offsets of a level's step up and of its step down, and its number of faces.
#[derive(Clone, Copy, Debug, PartialEq, Eq)]
pub struct Walked {
    pub next: usize,
    pub last: usize,
    pub faces: usize,
}

// A level, and the offsets of its step up and of its step down.
#[derive(Clone, Copy, Debug, PartialEq, Eq)]
pub struct Place {
    pub level: usize,
    pub next: usize,
    pub last: usize,
}

// Judges the form of a list (13), and notes as many of its marks as there is room for.
pub(crate) fn judge_list<'a>(
    steps: &'a [u32],
    marks: &'a mut [StepSpot],
) -> Result<MarkedList<'a>, Fault>
    requires { 0 < length marks.old }
    ensures { JudgedList steps.now result }
{
    if well_formed(steps, &mut *marks) {
        Ok(MarkedList { steps, marks })
    } else {
        Err(Fault::BadSteps)
    }
}

// The first step.
#[tactic(auto, unfolding(crate::specs::StepTable::step_offset, crate::specs::StepTable::faces_before))]
fn first_step(steps: &[u32]) -> StepSpot
    ensures { AtStep steps.now 0 result }
{
    StepSpot {
        offset: HEAD_WORDS,
        faces: number(steps, 1),
    }
}

// From step k on to the next.
fn pass_step(steps: &[u32], k: usize, spot: StepSpot) -> StepSpot
    requires { (well_formed steps.now ≡ true) × (k < step_count steps.now) × AtStep steps.now k spot }
    ensures { AtStep steps.now (k + 1) result }
{
    let step = Step {
        table: steps,
        at: spot.offset,
    };
    let added = step.new_face_count();
    StepSpot {
        offset: step.new_face_at(added),
        faces: spot.faces + added,
    }
}

// From step j on to step k.
fn walk_on(steps: &[u32], j: usize, start: StepSpot, k: usize) -> StepSpot
    requires { (well_formed steps.now ≡ true) × (j ≤ k) × (k ≤ step_count steps.now) × AtStep steps.now j start }
    ensures { AtStep steps.now k result }
{
    let mut spot = start;
    for i in j..k {
        spot = pass_step(steps, i, spot);
    }
    spot
}

// Of so many marks, the last that is not after step k.
fn mark_before(count: usize, k: usize) -> usize
    requires { 0 < count }
    ensures { (result < count) × (mark_steps * result ≤ k) }
{
    std::cmp::min(k / MARK_STEPS, count - 1)
}

// Walks over the first k steps, from the last mark before the end.
fn walk_to(list: MarkedList, k: usize) -> Walked
    requires { k ≤ step_count list.steps.now }
    ensures { Arrived list.entry.steps.now k result }
{
    if k == 0 {
        let base = first_step(list.steps);
        return Walked {
            next: base.offset,
            last: base.offset,
            faces: base.faces,
        };
    }
    let mark = mark_before(list.marks.len(), k - 1);
    let last = walk_on(list.steps, MARK_STEPS * mark, list.marks[mark], k - 1);
    let next = pass_step(list.steps, k - 1, last);
    Walked {
        next: next.offset,
        last: last.offset,
        faces: next.faces,
    }
}

// The level that has these counts (15 where none has).
pub(crate) fn locate(list: MarkedList, counts: Counts) -> Result<Place, Fault>
    ensures { judged_of result ≡ place_of list.entry.steps.now counts.faces counts.positions }
{
    let positions = counts.positions as usize;
    let base = number(list.steps, 0);
    if positions < base || number(list.steps, 2) < positions - base {
        return Err(Fault::CountsDisagree);
    }
    let level = positions - base;
    let walked = walk_to(list, level);
    if walked.faces != counts.faces as usize {
        return Err(Fault::CountsDisagree);
    }
    Ok(Place {
        level,
        next: walked.next,
        last: walked.last,
    })
}
