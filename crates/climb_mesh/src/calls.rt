// The calls of a word, made in turn.
use crate::print::{print_end, print_progress, print_step};
use crate::word::{Ask, first_ask, is_walk};
use fields::refusal::Fault;
use progressive::counts::Counts;
use progressive::refine::{Direction, coarsen, refine};
use progressive::requests::{Progress, StepRequest, take_request};
use std::io;

// A mesh that is climbed: its list of steps, its shading count and its tables.
#[derive(Drop)]
pub struct Climb<'a> {
    pub steps: &'a [u32],
    pub shadings: u32,
    pub faces: &'a mut [u32],
    pub positions: &'a mut [u32],
}

impl Climb<'_> {
    // One step.
    fn step(&mut self, direction: Direction, counts: Counts) -> Result<Counts, Fault> {
        let faces = &mut *self.faces;
        let positions = &mut *self.positions;
        match direction {
            Direction::Up => refine(self.steps, self.shadings, faces, positions, counts),
            Direction::Down => coarsen(self.steps, self.shadings, faces, positions, counts),
        }
    }

    // The steps of one request.
    fn request(&mut self, request: StepRequest, progress: Progress) -> Progress {
        let faces = &mut *self.faces;
        let positions = &mut *self.positions;
        take_request(
            request,
            self.steps,
            self.shadings,
            faces,
            positions,
            progress,
        )
    }
}

// Takes one step, prints its answer, and hands out the counts after it; those before where it is refused.
fn print_call(
    rt: &impl Print,
    climb: &mut Climb,
    direction: Direction,
    counts: Counts,
) -> io::Result<Counts> {
    let stepped = climb.step(direction, counts);
    let after = stepped.unwrap_or(counts);
    print_step(rt, direction, stepped.err(), after)?;
    Ok(after)
}

// Does what a letter asks for. The walk that ends here is printed; what follows starts from its counts.
fn follow(
    rt: &impl Print,
    climb: &mut Climb,
    ask: Ask,
    goes_on: bool,
    progress: Progress,
) -> io::Result<Progress> {
    let Some(count) = ask.count else {
        let after = print_call(rt, climb, ask.direction, progress.counts)?;
        return Ok(Progress::from(after));
    };
    let direction = u32::from(ask.direction);
    let progress = climb.request(StepRequest { direction, count }, progress);
    if goes_on {
        return Ok(progress);
    }
    print_progress(rt, progress)?;
    Ok(Progress::from(progress.counts))
}

// Makes the calls in turn.
pub(crate) fn print_calls(
    rt: &impl Print,
    word: &[u8],
    climb: &mut Climb,
    counts: Counts,
) -> io::Result<()> {
    let mut progress = Progress::from(counts);
    let mut calls: usize = 0;
    let mut rest = word;
    while let Some((ask, after)) = first_ask(rest) {
        let goes_on = ask.count.is_some() && is_walk(after);
        progress = follow(rt, climb, ask, goes_on, progress)?;
        if !goes_on {
            calls = calls.wrapping_add(1);
        }
        rest = after;
    }
    print_end(rt, calls)
}
