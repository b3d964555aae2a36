// The calls of a stored file.
use crate::breathe::breathe;
use crate::print::{print_progress, print_step};
use crate::run::Run;
use crate::stored::{CALL_SIZE, Call};
use crate::table::store_from;
use fields::words::put;
use progressive::refine::Direction;
use progressive::requests::{Progress, StepRequest};
use std::io;

// One step, and its line.
fn print_call(rt: &impl Print, run: &mut Run, direction: Direction) -> io::Result<()> {
    let stepped = run.step(direction);
    print_step(rt, direction, stepped, run)
}

// One request, and the line of what its walk has come to.
fn print_request(
    rt: &impl Print,
    run: &mut Run,
    name: &str,
    request: StepRequest,
) -> io::Result<()> {
    run.request(request);
    print_progress(rt, name, run)
}

fn perform(rt: &impl Print, run: &mut Run, call: Call) -> io::Result<()> {
    match call {
        Call::Step(direction) => return print_call(rt, run, direction),
        Call::Breathe { times, limit } => return breathe(rt, run, times, limit),
        Call::Walk(request) => {
            run.progress = Progress::from(run.progress.counts);
            return print_request(rt, run, "walk", request);
        }
        Call::WalkOn(request) => return print_request(rt, run, "on", request),
        Call::SetFace { at, word } => put(&mut *run.faces, at, word),
        Call::SetPosition { at, word } => put(&mut *run.positions, at, word),
        Call::SetStep { at, word } => put(&mut *run.steps, at, word),
        Call::FillSteps { from, word } => store_from(&mut *run.steps, from, word),
        Call::SetCounts(counts) => run.progress.counts = counts,
        Call::SetShadings(shadings) => run.shadings = shadings,
        Call::LendSteps(steps) => run.lent.steps = steps,
        Call::LendTables { faces, positions } => {
            run.lent.faces = faces;
            run.lent.positions = positions;
        }
    }
    Ok(())
}

pub(crate) fn perform_all(rt: &impl Print, run: &mut Run, calls: &[u8]) -> io::Result<()> {
    for call in calls.chunks_exact(CALL_SIZE) {
        if let Some(call) = Call::of(call) {
            perform(rt, run, call)?;
        }
    }
    Ok(())
}
