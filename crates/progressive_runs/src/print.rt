// Lines of fields with tabs between them.
use crate::run::Run;
use crate::table::checksum;
use fields::refusal::{Fault, Refusal};
use mesh::base::{MeshCounts, MeshRefusal, Part};
use progressive::refine::Direction;
use std::io;

// The answer's number, part and place.
pub(crate) fn print_mesh(rt: &impl Print, read: Result<MeshCounts, MeshRefusal>) -> io::Result<()> {
    let Err(MeshRefusal { part, refusal }) = read else {
        return print!(rt; "mesh\t0\t0\t0\n");
    };
    let part = match part {
        Part::Declaration => 0,
        Part::Continuation => 1,
    };
    let number = u32::from(refusal.fault);
    let place = refusal.place;
    print!(rt; "mesh\t{number}\t{part}\t{place}\n")
}

// The answer's number and place, how many words were written, and what the step table holds.
pub(crate) fn print_climb(
    rt: &impl Print,
    read: Result<usize, Refusal>,
    steps: &[u32],
) -> io::Result<()> {
    let sum = checksum(steps);
    match read {
        Ok(words) => print!(rt; "climb\t0\t0\t{words}\t{sum:08x}\n"),
        Err(Refusal { fault, place }) => {
            let number = u32::from(fault);
            print!(rt; "climb\t{number}\t{place}\t0\t{sum:08x}\n")
        }
    }
}

// The counts, and what the tables hold.
fn print_tables(rt: &impl Print, run: &Run) -> io::Result<()> {
    let positions = run.progress.counts.positions;
    let faces = run.progress.counts.faces;
    let face_sum = checksum(&*run.faces);
    let position_sum = checksum(&*run.positions);
    print!(rt; "\t{positions}\t{faces}\t{face_sum:08x}\t{position_sum:08x}\n")
}

// The answer's number and place, the counts, and what the tables hold.
pub(crate) fn print_step(
    rt: &impl Print,
    direction: Direction,
    stepped: Result<(), Fault>,
    run: &Run,
) -> io::Result<()> {
    let name = match direction {
        Direction::Up => "up",
        Direction::Down => "down",
    };
    let number = stepped.err().map_or(0, u32::from);
    print!(rt; "{name}\t{number}\t0")?;
    print_tables(rt, run)
}

// What a walk has come to: its number, the steps granted, the counts, and what the tables hold.
pub(crate) fn print_progress(rt: &impl Print, name: &str, run: &Run) -> io::Result<()> {
    let number = run.progress.number;
    let granted = run.progress.granted;
    print!(rt; "{name}\t{number}\t{granted}")?;
    print_tables(rt, run)
}

// How many steps were taken, and whether all is as before.
pub(crate) fn print_breaths(rt: &impl Print, steps: usize, same: bool) -> io::Result<()> {
    let answer = if same { "same" } else { "different" };
    print!(rt; "breathed\t{steps}\t{answer}\n")
}
