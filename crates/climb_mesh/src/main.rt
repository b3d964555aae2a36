// Reads the first base mesh of a file and a climb text, makes the calls of a word, single steps and walks, and prints after each the
// number given back and the counts of positions and faces.
#![tactic(auto)]

mod calls;
mod print;
mod word;

use blocks::file::walk_blocks;
use blocks::parts::data_part;
use calls::{Climb, print_calls};
use climb::read_climb;
use fields::field::bytes_at;
use fields::limits::LARGEST_PROGRAM_FILE;
use fields::refusal::{Fault, Refusal};
use input::argument_count;
use mesh::base::{MeshCounts, MeshRefusal, Part, read_mesh};
use mesh::tables::Tables;
use print::{print_climb, print_end, print_file, print_mesh};
use progressive::counts::Counts;
use rows::{declaration_of, is_base_mesh, offset_in};
use std::env::Env;
use std::io;
use std::rt::Runtime;
use word::are_calls;

// Room for 65,536 faces and positions.
const FACE_ROOM: usize = 1245184;

const POSITION_ROOM: usize = 196608;

// A file of 64 KiB has fewer numbers in all its pools. Counts above that are refused by 12.
const POOL_ROOM: usize = 16384;

// A text of 64 KiB has fewer: four words take at least 13 bytes.
const STEP_ROOM: usize = 20480;

fn print_message(rt: &impl Eprint, text: &str) -> io::Result<()> {
    eprint!(rt; "{text}")
}

fn print_call_form(rt: &impl Eprint) -> io::Result<()> {
    print_message(
        rt,
        "a call is u (one step up) or d (one step down), or a walk: ",
    )?;
    print_message(
        rt,
        "letters with a number of steps after each, at most 4294967295, as in u12d3\n",
    )
}

// The text's answer; a text above 64 KiB is refused.
fn read_text(text: &[u8], steps: &mut [u32]) -> Result<usize, Refusal> {
    if LARGEST_PROGRAM_FILE < text.len() {
        return Err(Fault::OverLimit.at(0));
    }
    read_climb(text, steps)
}

// The step count of a step table, 0 where it is empty.
fn step_count(steps: &[u32]) -> u32 {
    steps.get(2).copied().unwrap_or(0)
}

// The words that were written, none of a refused text.
fn words_of(read: Result<usize, Refusal>, steps: &[u32]) -> &[u32] {
    let words = read.unwrap_or(0);
    if steps.len() < words {
        return &[];
    }
    &steps[..words]
}

// The calls on a mesh that is read. Large tables are lent as arrays: their lengths are then known by their types.
fn print_read(
    rt: &impl Print,
    text: &[u8],
    calls: &[u8],
    counts: MeshCounts,
    faces: &mut [u32; FACE_ROOM],
    positions: &mut [u32; POSITION_ROOM],
) -> io::Result<()> {
    let mut table = [0u32; STEP_ROOM];
    let read = read_text(text, &mut table);
    let steps = words_of(read, &table);
    print_climb(rt, read, step_count(steps))?;
    if read.is_err() {
        return print_end(rt, 0);
    }
    let mut climb = Climb {
        steps,
        shadings: counts.shadings,
        faces,
        positions,
    };
    let present = Counts {
        positions: counts.positions,
        faces: counts.faces,
    };
    print_calls(rt, calls, &mut climb, present)
}

fn read_base(
    declaration: &[u8],
    continuation: &[u8],
    faces: &mut [u32; FACE_ROOM],
    positions: &mut [u32; POSITION_ROOM],
) -> Result<MeshCounts, MeshRefusal> {
    let mut normals = [0u32; POOL_ROOM];
    let mut diffuse = [0u32; POOL_ROOM];
    let mut specular = [0u32; POOL_ROOM];
    let mut texture = [0u32; POOL_ROOM];
    let tables = Tables {
        faces,
        positions,
        normals: &mut normals,
        diffuse: &mut diffuse,
        specular: &mut specular,
        texture: &mut texture,
    };
    read_mesh(declaration, continuation, tables)
}

fn print_base(
    rt: &impl Print,
    declaration: &[u8],
    continuation: &[u8],
    text: &[u8],
    calls: &[u8],
) -> io::Result<()> {
    let mut faces = [0u32; FACE_ROOM];
    let mut positions = [0u32; POSITION_ROOM];
    let read = read_base(declaration, continuation, &mut faces, &mut positions);
    print_mesh(rt, read)?;
    match read {
        Ok(counts) => print_read(rt, text, calls, counts, &mut faces, &mut positions),
        Err(_) => print_end(rt, 0),
    }
}

// A base mesh that goes with no declaration.
fn print_without(rt: &impl Print, fault: Fault) -> io::Result<()> {
    let refused = MeshRefusal {
        part: Part::Continuation,
        refusal: fault.at(0),
    };
    print_mesh(rt, Err(refused))?;
    print_end(rt, 0)
}

fn print_first(
    rt: &(impl Print + Eprint),
    file: &[u8],
    table: &[u32],
    rows: usize,
    text: &[u8],
    calls: &[u8],
) -> io::Result<()> {
    let Some(row) = (0..rows).find(|&row| is_base_mesh(table, row)) else {
        print_message(rt, "the file has no base mesh\n")?;
        return print_end(rt, 0);
    };
    let continuation = data_part(file, offset_in(table, row));
    match declaration_of(file, table, row) {
        Ok(at) => print_base(rt, data_part(file, at), continuation, text, calls),
        Err(fault) => print_without(rt, fault),
    }
}

fn print_refused(rt: &impl Print, refusal: Refusal) -> io::Result<()> {
    print_file(rt, Some(refusal))?;
    print_end(rt, 0)
}

// A file of at most 64 KiB has at most 5,459 blocks.
fn print_walk(
    rt: &(impl Print + Eprint),
    file: &[u8],
    text: &[u8],
    calls: &[u8],
) -> io::Result<()> {
    let mut table = [0u32; 27295];
    match walk_blocks(file, &mut table) {
        Ok(blocks) => {
            print_file(rt, None)?;
            print_first(rt, file, &table, blocks, text, calls)
        }
        Err(refusal) => print_refused(rt, refusal),
    }
}

fn print_all(rt: &(impl Print + Eprint), file: &[u8], text: &[u8], calls: &[u8]) -> io::Result<()> {
    print!(rt; "steps\t1\n")?;
    if LARGEST_PROGRAM_FILE < file.len() {
        return print_refused(rt, Fault::OverLimit.at(0));
    }
    print_walk(rt, file, text, calls)
}

// The files that the first two arguments name.
fn run(rt: &impl Runtime, calls: &[u8]) -> io::Result<()> {
    let mut file = [0u8; 65537];
    let mut text = [0u8; 65537];
    let Some(file_size) = input::read_file(rt, 1, &mut file) else {
        return Ok(());
    };
    let Some(text_size) = input::read_file(rt, 2, &mut text) else {
        return Ok(());
    };
    print_all(
        rt,
        bytes_at(&file, 0, file_size),
        bytes_at(&text, 0, text_size),
        calls,
    )
}

fn main(rt: HostRuntime) -> io::Result<()> {
    let mut word = [0u8; 4096];
    if argument_count(&rt) != 4 {
        print_message(&rt, "usage: climb_mesh FILE CLIMB CALLS\n")?;
        return print_call_form(&rt);
    }
    let Ok(length) = rt.arg(3, &mut word) else {
        return print_message(&rt, "the calls are at most 4,096 letters and digits\n");
    };
    if !are_calls(&word[..length]) {
        return print_call_form(&rt);
    }
    run(&rt, &word[..length])
}
