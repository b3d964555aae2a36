// Reads the mesh and the climb text of each file that its arguments name, makes the calls that follow them, and prints every
// answer with a checksum of each table.
#![tactic(auto)]

mod breathe;
mod calls;
mod print;
mod run;
mod stored;
mod table;

use calls::perform_all;
use climb::read_climb;
use fields::field::bytes_at;
use input::argument_count;
use mesh::base::{MeshCounts, MeshRefusal, read_mesh};
use mesh::tables::Tables;
use print::{print_climb, print_mesh};
use progressive::counts::Counts;
use progressive::requests::Progress;
use run::Run;
use std::env::Env;
use std::io;
use std::rt::Runtime;
use stored::{Lengths, Stored};
use table::filled;

// Room for 65,537 faces and positions, and 4,097 steps.
const FACE_ROOM: usize = 1245203;

const POSITION_ROOM: usize = 196611;

const STEP_ROOM: usize = 24585;

// Room for the tables of most files.
const SMALL_ROOM: usize = 8192;

const POOL_ROOM: usize = 4096;

fn read_base(
    stored: Stored,
    faces: &mut [u32],
    positions: &mut [u32],
) -> Result<MeshCounts, MeshRefusal> {
    let mut normals = [0u32; POOL_ROOM];
    let mut diffuse = [0u32; POOL_ROOM];
    let mut specular = [0u32; POOL_ROOM];
    let mut texture = [0u32; POOL_ROOM];
    let tables = Tables {
        faces,
        positions,
        normals: &mut normals,
        diffuse: &mut diffuse,
        specular: &mut specular,
        texture: &mut texture,
    };
    read_mesh(stored.declaration, stored.continuation, tables)
}

// Mesh, text and calls, on tables of these lengths. A refused mesh has no counts and no shadings, a refused text no words.
fn run_with(
    rt: &impl Print,
    stored: Stored,
    faces: &mut [u32],
    positions: &mut [u32],
    steps: &mut [u32],
) -> io::Result<()> {
    let mesh = read_base(stored, &mut *faces, &mut *positions);
    print_mesh(rt, mesh)?;
    let climb = read_climb(stored.text, &mut *steps);
    print_climb(rt, climb, &*steps)?;
    let (positions_read, faces_read, shadings) = match mesh {
        Ok(read) => (read.positions, read.faces, read.shadings),
        Err(_) => (0, 0, 0),
    };
    let counts = Counts {
        positions: positions_read,
        faces: faces_read,
    };
    let mut run = Run {
        lent: Lengths {
            faces: faces.len(),
            positions: positions.len(),
            steps: climb.unwrap_or(0),
        },
        steps,
        faces,
        positions,
        shadings,
        progress: Progress::from(counts),
    };
    perform_all(rt, &mut run, stored.calls)
}

// The same with tables of the lengths that the file asks for, in the rooms for the largest.
fn run_large(rt: &impl Print, stored: Stored, faces: &mut [u32]) -> io::Result<()> {
    let mut positions = [0u32; POSITION_ROOM];
    let mut steps = [0u32; STEP_ROOM];
    let lengths = stored.lengths;
    if faces.len() < lengths.faces {
        return Ok(());
    }
    run_with(
        rt,
        stored,
        filled(faces, lengths.faces),
        filled(&mut positions, lengths.positions),
        filled(&mut steps, lengths.steps),
    )
}

// The large table is lent as an array: its length is then known by its type.
fn run_within(rt: &impl Print, stored: Stored, faces: &mut [u32; FACE_ROOM]) -> io::Result<()> {
    run_large(rt, stored, faces)
}

fn run_with_room(rt: &impl Print, stored: Stored) -> io::Result<()> {
    let mut faces = [0u32; FACE_ROOM];
    run_within(rt, stored, &mut faces)
}

// Most tables are small.
fn run_small(rt: &impl Print, stored: Stored) -> io::Result<()> {
    let mut faces = [0u32; SMALL_ROOM];
    let mut positions = [0u32; SMALL_ROOM];
    let mut steps = [0u32; SMALL_ROOM];
    let lengths = stored.lengths;
    run_with(
        rt,
        stored,
        filled(&mut faces, lengths.faces),
        filled(&mut positions, lengths.positions),
        filled(&mut steps, lengths.steps),
    )
}

fn run_file(rt: &impl Print, file: &[u8]) -> io::Result<()> {
    let stored = Stored::of(file);
    if stored.lengths.are_within(SMALL_ROOM) {
        run_small(rt, stored)
    } else {
        run_with_room(rt, stored)
    }
}

// Kept: each program opens and names its files so; a public function for all would owe a promise, and none can say what is printed.
fn print_name(rt: &(impl Env + Print), i: usize) -> io::Result<()> {
    let mut name = [0u8; 4096];
    let length = rt.arg(i, &mut name).unwrap_or(0);
    rt.write_all(b"file\t")?;
    rt.write_all(&name[..length])?;
    rt.write_all(b"\n")
}

// A file has at most 64 KiB.
fn run_argument(rt: &impl Runtime, i: usize) -> io::Result<()> {
    let mut file = [0u8; 65536];
    let Some(n) = input::read_file(rt, i, &mut file) else {
        return Ok(());
    };
    print_name(rt, i)?;
    run_file(rt, bytes_at(&file, 0, n))
}

fn main(rt: HostRuntime) -> io::Result<()> {
    for i in 1..argument_count(&rt) {
        run_argument(&rt, i)?;
    }
    Ok(())
}
