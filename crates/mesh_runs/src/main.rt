// Reads the mesh of each file that its arguments name, and prints all that is handed out: the declaration's fields, the answer, a
// checksum of each table, and the faces of a small mesh. Where a file asks for cuts: the answer for each part cut at every length.
#![tactic(auto)]

mod pair;
mod print;
mod table;

use fields::field::bytes_at;
use input::argument_count;
use mesh::base::{MeshCounts, MeshRefusal, Part, read_mesh};
use mesh::declaration::read_declaration;
use mesh::tables::Tables;
use pair::{Pair, are_within, has_cuts, pair_of};
use print::{print_cut, print_declaration, print_faces, print_mesh, print_table};
use std::env::Env;
use std::io;
use std::rt::Runtime;
use table::lent;

// Room for 65,536 faces.
const FACE_ROOM: usize = 1245184;

const POOL_ROOM: usize = 4096;

// Reads a mesh into these tables, and prints the answer and what they hold.
fn print_read(rt: &impl Print, pair: Pair, tables: Tables<'_>) -> io::Result<()> {
    let Tables {
        faces,
        positions,
        normals,
        diffuse,
        specular,
        texture,
    } = tables;
    let lent = Tables {
        faces: &mut *faces,
        positions: &mut *positions,
        normals: &mut *normals,
        diffuse: &mut *diffuse,
        specular: &mut *specular,
        texture: &mut *texture,
    };
    let read = read_mesh(pair.declaration, pair.continuation, lent);
    print_mesh(rt, read)?;
    print_table(rt, "faces", faces)?;
    print_table(rt, "positions", positions)?;
    print_table(rt, "normals", normals)?;
    print_table(rt, "diffuse", diffuse)?;
    print_table(rt, "specular", specular)?;
    print_table(rt, "texture", texture)?;
    match read {
        Ok(counts) => print_faces(rt, faces, counts.faces),
        Err(_) => Ok(()),
    }
}

// The same with tables of these lengths.
fn run_with(rt: &impl Print, pair: Pair, faces: &mut [u32]) -> io::Result<()> {
    let mut positions = [0u32; POOL_ROOM];
    let mut normals = [0u32; POOL_ROOM];
    let mut diffuse = [0u32; POOL_ROOM];
    let mut specular = [0u32; POOL_ROOM];
    let mut texture = [0u32; POOL_ROOM];
    let tables = Tables {
        faces: lent(faces, pair.lengths.faces),
        positions: lent(&mut positions, pair.lengths.positions),
        normals: lent(&mut normals, pair.lengths.normals),
        diffuse: lent(&mut diffuse, pair.lengths.diffuse),
        specular: lent(&mut specular, pair.lengths.specular),
        texture: lent(&mut texture, pair.lengths.texture),
    };
    print_read(rt, pair, tables)
}

// The large table is lent as an array: its length is then known by its type.
fn run_within(rt: &impl Print, pair: Pair, faces: &mut [u32; FACE_ROOM]) -> io::Result<()> {
    run_with(rt, pair, faces)
}

fn run_pair(rt: &impl Print, pair: Pair) -> io::Result<()> {
    let mut faces = [0u32; FACE_ROOM];
    run_within(rt, pair, &mut faces)
}

// The answer for a part that is cut, with tables of these lengths.
fn answer_for(pair: Pair) -> Result<MeshCounts, MeshRefusal> {
    let mut faces = [0u32; POOL_ROOM];
    let mut positions = [0u32; POOL_ROOM];
    let mut normals = [0u32; POOL_ROOM];
    let mut diffuse = [0u32; POOL_ROOM];
    let mut specular = [0u32; POOL_ROOM];
    let mut texture = [0u32; POOL_ROOM];
    let tables = Tables {
        faces: lent(&mut faces, pair.lengths.faces),
        positions: lent(&mut positions, pair.lengths.positions),
        normals: lent(&mut normals, pair.lengths.normals),
        diffuse: lent(&mut diffuse, pair.lengths.diffuse),
        specular: lent(&mut specular, pair.lengths.specular),
        texture: lent(&mut texture, pair.lengths.texture),
    };
    read_mesh(pair.declaration, pair.continuation, tables)
}

// The declaration cut at every length, and whole.
fn cut_declarations(rt: &impl Print, pair: Pair) -> io::Result<()> {
    for size in 0..=pair.declaration.len() {
        let declaration = &pair.declaration[..size];
        let read = answer_for(Pair {
            declaration,
            ..pair
        });
        print_cut(rt, Part::Declaration, size, read)?;
    }
    Ok(())
}

// The continuation cut at every length, and whole.
fn cut_continuations(rt: &impl Print, pair: Pair) -> io::Result<()> {
    for size in 0..=pair.continuation.len() {
        let continuation = &pair.continuation[..size];
        let read = answer_for(Pair {
            continuation,
            ..pair
        });
        print_cut(rt, Part::Continuation, size, read)?;
    }
    Ok(())
}

fn run_cuts(rt: &impl Print, pair: Pair) -> io::Result<()> {
    if !are_within(pair.lengths, POOL_ROOM, POOL_ROOM) {
        return rt.write_all(b"tables too long\n");
    }
    cut_declarations(rt, pair)?;
    cut_continuations(rt, pair)
}

fn run_file(rt: &impl Print, file: &[u8]) -> io::Result<()> {
    let pair = pair_of(file);
    if !are_within(pair.lengths, FACE_ROOM, POOL_ROOM) {
        return rt.write_all(b"tables too long\n");
    }
    print_declaration(rt, read_declaration(pair.declaration))?;
    run_pair(rt, pair)?;
    if has_cuts(file) {
        run_cuts(rt, pair)?;
    }
    Ok(())
}

// Kept: each program opens and names its files so; a public function for all would owe a promise, and none can say what is printed.
fn print_name(rt: &(impl Env + Print), i: usize) -> io::Result<()> {
    let mut name = [0u8; 4096];
    let length = rt.arg(i, &mut name).unwrap_or(0);
    rt.write_all(b"file\t")?;
    rt.write_all(&name[..length])?;
    rt.write_all(b"\n")
}

// A file has at most 64 KiB.
fn run(rt: &impl Runtime, i: usize) -> io::Result<()> {
    let mut file = [0u8; 65536];
    let Some(size) = input::read_file(rt, i, &mut file) else {
        return Ok(());
    };
    print_name(rt, i)?;
    run_file(rt, bytes_at(&file, 0, size))
}

fn main(rt: HostRuntime) -> io::Result<()> {
    for i in 1..argument_count(&rt) {
        run(&rt, i)?;
    }
    Ok(())
}
