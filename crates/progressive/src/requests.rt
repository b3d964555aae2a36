// Many steps in one call (02, Ask 6): a walk takes wishes in turn and stops at the first refusal; the steps granted before it stay.
ghost use Rattle.std.specs.Prelude.{◌≡◌, [], ◌∷◌};
ghost use Rattle.progressive.specs.Inside.{Asked, JudgedList, ask_of, refused_as};
ghost use Rattle.progressive.specs.Requests.{asks, asks_of, begun, progress_of, walked_on};

use crate::counts::Counts;
use crate::form::{MARK_STEPS, StepSpot};
use crate::levels::judge_list;
use crate::list::MarkedList;
use crate::refine::{Direction, step_in};
use fields::limits::MOST_STEPS;
use fields::refusal::Fault;

// The marks of the longest list.
const MARKS: usize = MOST_STEPS as usize / MARK_STEPS;

// A wish: steps up (direction 0) or down (1), and how many.
// Kept: the direction is a number since the C interface lends wishes.
#[repr(C)]
#[derive(Clone, Copy, Debug, PartialEq, Eq)]
pub struct StepRequest {
    pub direction: u32,
    pub count: u32,
}

// What a walk has come to: the number of its refusal, or 0; the steps granted, modulo 2^64; the present counts.
// Kept: a number, since take_request and step_all promise the same of a start that has any.
#[derive(Clone, Copy, Debug, PartialEq, Eq)]
pub struct Progress {
    pub number: u32,
    pub granted: u64,
    pub counts: Counts,
}

// A walk that has taken no wish.
impl From<Counts> for Progress {
    ghost from_gives = { λ counts progress. progress ≡ begun counts };

    fn from(counts: Counts) -> Progress {
        Progress {
            number: 0,
            granted: 0,
            counts,
        }
    }
}

impl Progress {
    // The same steps and counts, and a refusal.
    fn refused(self, fault: Fault) -> Progress
        ensures { result ≡ refused_as fault self }
    {
        Progress {
            number: u32::from(fault),
            ..self
        }
    }
}

// The way of a wish; 9 where it is neither up nor down, or above 4,096 steps.
#[tactic(auto, using(crate::proofs::Walking::asked_over, crate::proofs::Walking::asked_by))]
fn direction_of(request: StepRequest) -> Result<Direction, Fault>
    ensures { Asked (asks_of request.direction request.count) request.count result }
{
    if MOST_STEPS < request.count {
        Err(Fault::OverLimit)
    } else {
        Direction::try_from(request.direction)
    }
}

// One step more of a walk, unless it was refused.
fn step_on(
    direction: Direction,
    steps: &[u32],
    list: Result<MarkedList, Fault>,
    shadings: u32,
    faces: &mut [u32],
    positions: &mut [u32],
    progress: Progress,
) -> Progress
    requires { JudgedList steps.now list }
    ensures { progress_of result faces.new positions.new
        ≡ walked_on steps.now shadings (ask_of direction ∷ []) (progress_of progress faces.old positions.old) }
{
    if progress.number != 0 {
        return progress;
    }
    let counts = progress.counts;
    match step_in(direction, steps, list, shadings, faces, positions, counts) {
        Ok(after) => Progress {
            number: 0,
            granted: progress.granted.wrapping_add(1),
            counts: after,
        },
        Err(fault) => progress.refused(fault),
    }
}

// One wish of a walk, in a list that was judged.
fn take_judged(
    request: StepRequest,
    steps: &[u32],
    list: Result<MarkedList, Fault>,
    shadings: u32,
    faces: &mut [u32],
    positions: &mut [u32],
    start: Progress,
) -> Progress
    requires { JudgedList steps.now list }
    ensures { progress_of result faces.new positions.new
        ≡ walked_on steps.now shadings (asks_of request.direction request.count) (progress_of start faces.old positions.old) }
{
    if start.number != 0 {
        return start;
    }
    match direction_of(request) {
        Err(fault) => start.refused(fault),
        Ok(direction) => {
            let mut progress = start;
            for _ in 0..request.count {
                progress = step_on(direction, steps, list, shadings, faces, positions, progress);
            }
            progress
        }
    }
}

// One wish of a walk that was not refused: 9 if it is above 4,096 or neither up nor down; else its steps, to the first refusal.
pub fn take_request(
    request: StepRequest,
    steps: &[u32],
    shadings: u32,
    faces: &mut [u32],
    positions: &mut [u32],
    start: Progress,
) -> Progress
    ensures { progress_of result faces.new positions.new
        ≡ walked_on steps.now shadings (asks_of request.direction request.count) (progress_of start faces.old positions.old) }
{
    let mut marks = [StepSpot {
        offset: 0,
        faces: 0,
    }; MARKS];
    let list = judge_list(steps, &mut marks);
    take_judged(request, steps, list, shadings, faces, positions, start)
}

// Every wish in turn, to the first refusal.
pub fn step_all(
    requests: &[StepRequest],
    steps: &[u32],
    shadings: u32,
    faces: &mut [u32],
    positions: &mut [u32],
    start: Progress,
) -> Progress
    ensures { progress_of result faces.new positions.new
        ≡ walked_on steps.now shadings (asks requests.now) (progress_of start faces.old positions.old) }
{
    let mut marks = [StepSpot {
        offset: 0,
        faces: 0,
    }; MARKS];
    let list = judge_list(steps, &mut marks);
    let mut progress = start;
    for request in requests {
        progress = take_judged(*request, steps, list, shadings, faces, positions, progress);
    }
    progress
}
