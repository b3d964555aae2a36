// Many steps up and down, after which all should be as before.
use crate::print::print_breaths;
use crate::run::Run;
use crate::table::copy;
use progressive::refine::Direction;
use std::io;

// Room for a copy of either table.
const COPY_ROOM: usize = 8192;

// Steps one way up to a refusal, at most so many; how many were taken.
fn steps_taken(run: &mut Run, direction: Direction, limit: u32) -> usize {
    for taken in 0..limit {
        if run.step(direction).is_err() {
            return taken as usize;
        }
    }
    limit as usize
}

// So many times up to a refusal, and down to one; how many steps were taken.
fn breaths(run: &mut Run, times: u32, limit: u32) -> usize {
    let mut taken: usize = 0;
    for _ in 0..times {
        taken = taken.wrapping_add(steps_taken(run, Direction::Up, limit));
        taken = taken.wrapping_add(steps_taken(run, Direction::Down, limit));
    }
    taken
}

// Breathes so many times, and tells whether tables and counts are as before.
pub(crate) fn breathe(rt: &impl Print, run: &mut Run, times: u32, limit: u32) -> io::Result<()> {
    let mut old_faces = [0u32; COPY_ROOM];
    let mut old_positions = [0u32; COPY_ROOM];
    copy(&*run.faces, &mut old_faces);
    copy(&*run.positions, &mut old_positions);
    let old_counts = run.progress.counts;
    let taken = breaths(run, times, limit);
    let same = old_counts == run.progress.counts
        && old_faces.starts_with(&*run.faces)
        && old_positions.starts_with(&*run.positions);
    print_breaths(rt, taken, same)
}
