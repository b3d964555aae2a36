// Lines of fields with tabs between them.
use fields::refusal::{Fault, Refusal};
use mesh::base::{MeshCounts, MeshRefusal, Part};
use progressive::counts::Counts;
use progressive::refine::Direction;
use progressive::requests::Progress;
use std::io;

// The file's answer: number and place.
pub(crate) fn print_file(rt: &impl Print, refused: Option<Refusal>) -> io::Result<()> {
    match refused {
        None => print!(rt; "file\t0\t0\n"),
        Some(Refusal { fault, place }) => {
            let number = u32::from(fault);
            print!(rt; "file\t{number}\t{place}\n")
        }
    }
}

// The mesh's answer: number, the part that the place counts in, place, and the counts of positions and faces.
pub(crate) fn print_mesh(rt: &impl Print, read: Result<MeshCounts, MeshRefusal>) -> io::Result<()> {
    match read {
        Ok(
            MeshCounts {
                positions,
                faces,
                ..
            },
        ) => print!(rt; "mesh\t0\tnone\t0\t{positions}\t{faces}\n"),
        Err(MeshRefusal { part, refusal }) => {
            let number = u32::from(refusal.fault);
            let place = refusal.place;
            let part = match part {
                Part::Declaration => "declaration",
                Part::Continuation => "continuation",
            };
            print!(rt; "mesh\t{number}\t{part}\t{place}\t0\t0\n")
        }
    }
}

// The climb text's answer: number, place, and how many steps it has.
pub(crate) fn print_climb(
    rt: &impl Print,
    read: Result<usize, Refusal>,
    steps: u32,
) -> io::Result<()> {
    match read {
        Ok(_) => print!(rt; "climb\t0\t0\t{steps}\n"),
        Err(Refusal { fault, place }) => {
            let number = u32::from(fault);
            print!(rt; "climb\t{number}\t{place}\t{steps}\n")
        }
    }
}

// A step's letter and number, and the counts after it.
pub(crate) fn print_step(
    rt: &impl Print,
    direction: Direction,
    refusal: Option<Fault>,
    counts: Counts,
) -> io::Result<()> {
    let letter = match direction {
        Direction::Up => "u",
        Direction::Down => "d",
    };
    let number = refusal.map_or(0, u32::from);
    let Counts { positions, faces } = counts;
    print!(rt; "{letter}\t{number}\t{positions}\t{faces}\n")
}

// A walk's number, the steps granted, and the counts after them.
pub(crate) fn print_progress(rt: &impl Print, progress: Progress) -> io::Result<()> {
    let number = progress.number;
    let granted = progress.granted;
    let Counts { positions, faces } = progress.counts;
    print!(rt; "walk\t{number}\t{granted}\t{positions}\t{faces}\n")
}

// How many calls were made.
pub(crate) fn print_end(rt: &impl Print, calls: usize) -> io::Result<()> {
    print!(rt; "end\t{calls}\n")
}
