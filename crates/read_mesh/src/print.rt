// Lines of fields with tabs between them.
use fields::refusal::Fault;
use mesh::base::{MeshCounts, MeshRefusal, Part};
use mesh::faces::FACE_WORDS;
use mesh::shading::SHADINGS;
use std::io;

fn print_field(rt: &impl Print, value: u32) -> io::Result<()> {
    print!(rt; "\t{value}")
}

// The last line: how many meshes there are in a file that is done, 0 in one that is refused.
pub(crate) fn print_end(rt: &impl Print, meshes: Result<usize, Fault>) -> io::Result<()> {
    let number = meshes.err().map_or(0, u32::from);
    let count = meshes.unwrap_or(0);
    print!(rt; "end\t{number}\t{count}\n")
}

// A byte of a name: printable ASCII as it is, all else and the backslash as \x and two digits.
fn print_byte(rt: &impl Print, byte: u8) -> io::Result<()> {
    if matches!(byte, b' '..=b'~') && byte != b'\\' {
        rt.write_all(&[byte])
    } else {
        print!(rt; "\\x{byte:02x}")
    }
}

pub(crate) fn print_name(rt: &impl Print, name: &[u8]) -> io::Result<()> {
    rt.write_all(b"mesh\t")?;
    for byte in name {
        print_byte(rt, *byte)?;
    }
    rt.write_all(b"\n")
}

fn name_of(part: Part) -> &'static str {
    match part {
        Part::Declaration => "declaration",
        Part::Continuation => "continuation",
    }
}

// The number, the part that the place counts in, and the place.
pub(crate) fn print_refusal(rt: &impl Print, refused: MeshRefusal) -> io::Result<()> {
    let number = u32::from(refused.refusal.fault);
    let part = name_of(refused.part);
    print!(rt; "answer\t{number}\t{part}\t{}\n", refused.refusal.place)
}

pub(crate) fn print_counts(rt: &impl Print, counts: MeshCounts) -> io::Result<()> {
    rt.write_all(b"answer\t0\tnone\t0\ncounts")?;
    let numbers = [
        counts.faces,
        counts.positions,
        counts.normals,
        counts.diffuse,
        counts.specular,
        counts.texture,
        counts.shadings,
    ];
    for number in numbers {
        print_field(rt, number)?;
    }
    rt.write_all(b"\n")
}

// How many of the first `count` faces have each shading.
fn count_uses(faces: &[u32], count: usize) -> [u32; SHADINGS] {
    let mut uses = [0u32; SHADINGS];
    for face in faces.chunks_exact(FACE_WORDS).take(count) {
        let id = face[0] as usize;
        if id < SHADINGS {
            uses[id] = uses[id].wrapping_add(1);
        }
    }
    uses
}

// For each shading that occurs, how many of the faces have it.
pub(crate) fn print_uses(rt: &impl Print, faces: &[u32], count: u32) -> io::Result<()> {
    let uses = count_uses(faces, count as usize);
    for id in 0..SHADINGS {
        if uses[id] != 0 {
            print!(rt; "shading\t{id}\t{}\n", uses[id])?;
        }
    }
    Ok(())
}
