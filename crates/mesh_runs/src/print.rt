// Lines of fields with tabs between them.
use crate::table::checksum;
use fields::refusal::Refusal;
use mesh::base::{MeshCounts, MeshRefusal, Part};
use mesh::declaration::Declaration;
use mesh::faces::FACE_WORDS;
use mesh::shading::Shading;
use std::io;

// The fields of a declaration that has no shadings.
const FEWEST_FIELDS: usize = 24;

fn print_word(rt: &impl Print, word: u32) -> io::Result<()> {
    print!(rt; "\t{word}")
}

fn print_words(rt: &impl Print, words: &[u32]) -> io::Result<()> {
    for word in words {
        print_word(rt, *word)?;
    }
    Ok(())
}

fn print_shading(rt: &impl Print, shading: Shading) -> io::Result<()> {
    print_word(rt, shading.attributes)?;
    print_word(rt, shading.layer_count)?;
    print_words(rt, &shading.dimensions)?;
    print_word(rt, shading.original_id)
}

fn print_closing(rt: &impl Print, declaration: &Declaration) -> io::Result<()> {
    print_word(rt, declaration.minimum_resolution)?;
    print_word(rt, declaration.maximum_resolution)?;
    print_words(rt, &declaration.quality_factors)?;
    print_words(rt, &declaration.inverse_quants)?;
    print_words(rt, &declaration.normal_parameters)?;
    print_word(rt, declaration.bone_count)
}

// Every field, in file order; of the name its length.
fn print_fields(rt: &impl Print, declaration: &Declaration) -> io::Result<()> {
    print!(rt; "\t{}", declaration.name_size)?;
    print_word(rt, declaration.chain_index)?;
    print_word(rt, declaration.attributes)?;
    print_words(rt, &declaration.counts)?;
    print_word(rt, declaration.shading_count)?;
    for shading in declaration
        .shadings
        .iter()
        .take(declaration.shading_count as usize)
    {
        print_shading(rt, *shading)?;
    }
    print_closing(rt, declaration)
}

// Number and place, and the fields, all 0 of a declaration that is refused.
pub(crate) fn print_declaration(
    rt: &impl Print,
    read: Result<Declaration, Refusal>,
) -> io::Result<()> {
    rt.write_all(b"declaration")?;
    match read {
        Ok(declaration) => {
            print_words(rt, &[0; 2])?;
            print_fields(rt, &declaration)?;
        }
        Err(refusal) => {
            print!(rt; "\t{}\t{}", u32::from(refusal.fault), refusal.place)?;
            print_words(rt, &[0; FEWEST_FIELDS])?;
        }
    }
    rt.write_all(b"\n")
}

fn part_number(part: Part) -> u32 {
    match part {
        Part::Declaration => 0,
        Part::Continuation => 1,
    }
}

// The answer's number, part and place.
fn print_answer(rt: &impl Print, read: Result<MeshCounts, MeshRefusal>) -> io::Result<()> {
    match read {
        Ok(_) => rt.write_all(b"\t0\t0\t0"),
        Err(refused) => {
            print_word(rt, refused.refusal.fault.into())?;
            print_word(rt, part_number(refused.part))?;
            print!(rt; "\t{}", refused.refusal.place)
        }
    }
}

// The counts, all 0 of a mesh that is refused.
fn counts_of(read: Result<MeshCounts, MeshRefusal>) -> [u32; 7] {
    match read {
        Ok(counts) => [
            counts.faces,
            counts.positions,
            counts.normals,
            counts.diffuse,
            counts.specular,
            counts.texture,
            counts.shadings,
        ],
        Err(_) => [0; 7],
    }
}

pub(crate) fn print_mesh(rt: &impl Print, read: Result<MeshCounts, MeshRefusal>) -> io::Result<()> {
    rt.write_all(b"mesh")?;
    print_answer(rt, read)?;
    print_words(rt, &counts_of(read))?;
    rt.write_all(b"\n")
}

pub(crate) fn print_table(rt: &impl Print, name: &str, table: &[u32]) -> io::Result<()> {
    print!(rt; "table\t{name}\t{}\t{:08x}\n", table.len(), checksum(table))
}

// The records of a small mesh.
pub(crate) fn print_faces(rt: &impl Print, table: &[u32], count: u32) -> io::Result<()> {
    if 8 < count {
        return Ok(());
    }
    for face in table.chunks_exact(FACE_WORDS).take(count as usize) {
        rt.write_all(b"face")?;
        print_words(rt, face)?;
        rt.write_all(b"\n")?;
    }
    Ok(())
}

// The answer for a part that is cut at a length.
pub(crate) fn print_cut(
    rt: &impl Print,
    part: Part,
    length: usize,
    read: Result<MeshCounts, MeshRefusal>,
) -> io::Result<()> {
    print!(rt; "cut\t{}\t{length}", part_number(part))?;
    print_answer(rt, read)?;
    rt.write_all(b"\n")
}
