// Reads each base mesh of the file that its argument names, or of standard input where there is none, and prints its name, the
// answer, its counts, and how many faces each shading has.
#![tactic(auto)]

mod print;

use blocks::file::walk_blocks;
use blocks::parts::data_part;
use fields::field::bytes_at;
use fields::limits::LARGEST_PROGRAM_FILE;
use fields::refusal::Fault;
use input::argument_count;
use mesh::base::{MeshRefusal, Part, read_mesh};
use mesh::declaration::mesh_name;
use mesh::tables::Tables;
use print::{print_counts, print_end, print_name, print_refusal, print_uses};
use rows::{declaration_of, is_base_mesh, offset_in};
use std::io;

// Room for 65,536 faces.
const FACE_ROOM: usize = 1245184;

// A file of 64 KiB has fewer numbers in all its pools. Counts above that are refused by 12.
const POOL_ROOM: usize = 16384;

// The large table is lent as an array: its length is then known by its type.
fn print_read(
    rt: &impl Print,
    declaration: &[u8],
    continuation: &[u8],
    faces: &mut [u32; FACE_ROOM],
) -> io::Result<()> {
    let mut positions = [0u32; POOL_ROOM];
    let mut normals = [0u32; POOL_ROOM];
    let mut diffuse = [0u32; POOL_ROOM];
    let mut specular = [0u32; POOL_ROOM];
    let mut texture = [0u32; POOL_ROOM];
    let tables = Tables {
        faces: &mut *faces,
        positions: &mut positions,
        normals: &mut normals,
        diffuse: &mut diffuse,
        specular: &mut specular,
        texture: &mut texture,
    };
    match read_mesh(declaration, continuation, tables) {
        Err(refused) => print_refusal(rt, refused),
        Ok(counts) => {
            print_counts(rt, counts)?;
            print_uses(rt, &*faces, counts.faces)
        }
    }
}

fn print_mesh(rt: &impl Print, declaration: &[u8], continuation: &[u8]) -> io::Result<()> {
    let mut faces = [0u32; FACE_ROOM];
    print_read(rt, declaration, continuation, &mut faces)
}

// A base mesh that goes with no declaration.
fn print_without(rt: &impl Print, fault: Fault) -> io::Result<()> {
    let refused = MeshRefusal {
        part: Part::Continuation,
        refusal: fault.at(0),
    };
    print_refusal(rt, refused)
}

fn print_base_mesh(rt: &impl Print, file: &[u8], table: &[u32], row: usize) -> io::Result<()> {
    let continuation = data_part(file, offset_in(table, row));
    print_name(rt, mesh_name(continuation))?;
    match declaration_of(file, table, row) {
        Err(fault) => print_without(rt, fault),
        Ok(at) => print_mesh(rt, data_part(file, at), continuation),
    }
}

// Prints the base meshes, and answers how many there are.
fn print_rows(rt: &impl Print, file: &[u8], table: &[u32], rows: usize) -> io::Result<usize> {
    let mut meshes: usize = 0;
    for row in 0..rows {
        if is_base_mesh(table, row) {
            print_base_mesh(rt, file, table, row)?;
            meshes = meshes.wrapping_add(1);
        }
    }
    Ok(meshes)
}

// A file of at most 64 KiB has at most 5,459 blocks.
fn print_walk(rt: &impl Print, file: &[u8]) -> io::Result<()> {
    let mut table = [0u32; 27295];
    match walk_blocks(file, &mut table) {
        Err(e) => print_end(rt, Err(e.fault)),
        Ok(blocks) => print_end(rt, Ok(print_rows(rt, file, &table, blocks)?)),
    }
}

fn print_file(rt: &impl Print, input: Option<usize>, buffer: &[u8]) -> io::Result<()> {
    let Some(size) = input else {
        return Ok(());
    };
    rt.write_all(b"meshes\t1\n")?;
    if LARGEST_PROGRAM_FILE < size {
        return print_end(rt, Err(Fault::OverLimit));
    }
    print_walk(rt, bytes_at(buffer, 0, size))
}

fn main(rt: HostRuntime) -> io::Result<()> {
    let mut buffer = [0u8; 65537];
    let arguments = argument_count(&rt);
    if 2 < arguments {
        return eprintln!(rt; "usage: read_mesh [FILE]");
    }
    if arguments == 2 {
        let input = input::read_file(&rt, 1, &mut buffer);
        print_file(&rt, input, &buffer)
    } else {
        let input = input::read_standard(&rt, &mut buffer);
        print_file(&rt, input, &buffer)
    }
}
