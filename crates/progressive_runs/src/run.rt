// The tables of a run, and single calls on them.
use crate::stored::Lengths;
use crate::table::lent;
use fields::refusal::Fault;
use progressive::counts::Counts;
use progressive::refine::{Direction, coarsen, refine};
use progressive::requests::{Progress, StepRequest, take_request};

// The tables, how many words of each are lent to a call, the shading count, and what the last walk and the calls after it came to.
#[derive(Drop)]
pub struct Run<'a> {
    pub steps: &'a mut [u32],
    pub faces: &'a mut [u32],
    pub positions: &'a mut [u32],
    pub lent: Lengths,
    pub shadings: u32,
    pub progress: Progress,
}

impl Run<'_> {
    // One step up or down, on what is lent.
    pub(crate) fn step(&mut self, direction: Direction) -> Result<(), Fault> {
        let steps = lent(&mut *self.steps, self.lent.steps);
        let faces = lent(&mut *self.faces, self.lent.faces);
        let positions = lent(&mut *self.positions, self.lent.positions);
        let counts = self.progress.counts;
        self.progress.counts = match direction {
            Direction::Up => refine(steps, self.shadings, faces, positions, counts)?,
            Direction::Down => coarsen(steps, self.shadings, faces, positions, counts)?,
        };
        Ok(())
    }

    // One request of a walk, on what is lent.
    pub(crate) fn request(&mut self, request: StepRequest) {
        let steps = lent(&mut *self.steps, self.lent.steps);
        let faces = lent(&mut *self.faces, self.lent.faces);
        let positions = lent(&mut *self.positions, self.lent.positions);
        self.progress = take_request(
            request,
            steps,
            self.shadings,
            faces,
            positions,
            self.progress,
        );
    }
}
