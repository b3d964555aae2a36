// The mesh declaration (clause 9.6.1.1): its fields in file order, from the name to the bone count.
ghost use Rattle.std.specs.Prelude.{◌≡◌};
ghost use Rattle.fields.specs.Judged.{given};
ghost use Rattle.mesh.specs.Declaration.{declaration_of, declaration_with, mesh_name};
ghost use Rattle.mesh.specs.Inside.{closing_at};

use crate::run::{Rule, UNJUDGED, name_end, read_run};
use crate::shading::{SHADINGS, Shading, read_shadings};
use crate::tables::TABLES;
use fields::limits::{LARGEST_COUNT, LARGEST_FILE};
use fields::name::name_part;
use fields::refusal::{Fault, Refusal};

// A count of faces, or of a pool's entries.
const COUNT: Rule = Rule {
    limit: LARGEST_COUNT,
    ..UNJUDGED
};

// The rules of the fields before the shadings.
const OPENING: [Rule; 9] = [
    // Chain index.
    Rule {
        most: 0,
        ..UNJUDGED
    },
    // Attributes.
    Rule {
        most: 1,
        ..UNJUDGED
    },
    // Faces, positions, normals, diffuse colors, specular colors, texture coordinates.
    COUNT,
    COUNT,
    COUNT,
    COUNT,
    COUNT,
    COUNT,
    // Shading count.
    Rule {
        limit: SHADINGS as u32,
        ..UNJUDGED
    },
];

// The fields after the shadings.
const CLOSING_FIELDS: usize = 14;

// The rules of these fields: none, but for the last one, the bone count.
const CLOSING: [Rule; CLOSING_FIELDS] = [
    UNJUDGED,
    UNJUDGED,
    UNJUDGED,
    UNJUDGED,
    UNJUDGED,
    UNJUDGED,
    UNJUDGED,
    UNJUDGED,
    UNJUDGED,
    UNJUDGED,
    UNJUDGED,
    UNJUDGED,
    UNJUDGED,
    Rule {
        limit: 0,
        ..UNJUDGED
    },
];

// A mesh declaration. Its name stands after the two bytes of its length. Inverse quants and parameters are F32 bit patterns.
#[derive(Clone, Copy)]
pub struct Declaration {
    pub name_size: usize,
    pub chain_index: u32,
    // Bit 0: no normals.
    pub attributes: u32,
    // Faces, positions, normals, diffuse colors, specular colors, texture coordinates.
    // Kept: `Declarable` of mesh_theorems speaks of the arrays of this struct as lists.
    pub counts: [u32; TABLES],
    pub shading_count: u32,
    pub shadings: [Shading; SHADINGS],
    pub minimum_resolution: u32,
    pub maximum_resolution: u32,
    // Position, normal, texture coordinate.
    pub quality_factors: [u32; 3],
    // Position, normal, texture coordinate, diffuse color, specular color.
    pub inverse_quants: [u32; 5],
    // Normal crease, normal update, normal tolerance.
    pub normal_parameters: [u32; 3],
    pub bone_count: u32,
}

// The name at the start of a declaration's or a continuation's data; empty where there is none.
pub fn mesh_name(s: &[u8]) -> &[u8]
    ensures { result.now ≡ mesh_name s.now }
{
    if s.len() > LARGEST_FILE {
        return &s[..0];
    }
    name_part(s, 0)
}

// The declaration with these fields.
// Kept: both runs are arrays, since a run is read into one; their fields get their names here.
fn with_fields(
    name_size: usize,
    head: [u32; 9],
    shadings: [Shading; SHADINGS],
    tail: [u32; CLOSING_FIELDS],
) -> Declaration
    ensures { result ≡ declaration_with name_size head shadings tail }
{
    Declaration {
        name_size,
        chain_index: head[0],
        attributes: head[1],
        counts: [head[2], head[3], head[4], head[5], head[6], head[7]],
        shading_count: head[8],
        shadings,
        minimum_resolution: tail[0],
        maximum_resolution: tail[1],
        quality_factors: [tail[2], tail[3], tail[4]],
        inverse_quants: [tail[5], tail[6], tail[7], tail[8], tail[9]],
        normal_parameters: [tail[10], tail[11], tail[12]],
        bone_count: tail[13],
    }
}

// Reads the fields after the shadings, which end at `from`.
fn read_closing(
    s: &[u8],
    from: usize,
    name_size: usize,
    head: [u32; 9],
    shadings: [Shading; SHADINGS],
) -> Result<Declaration, Refusal>
    ensures { given result ≡ closing_at s.now from name_size head shadings }
{
    let mut tail = [0u32; CLOSING_FIELDS];
    let end = read_run(s, from, &CLOSING, &mut tail)?;
    if end < s.len() {
        return Err(Fault::BytesLeft.at(end));
    }
    Ok(with_fields(name_size, head, shadings, tail))
}

// Reads a mesh declaration's data.
pub fn read_declaration(s: &[u8]) -> Result<Declaration, Refusal>
    ensures { given result ≡ declaration_of s.now }
{
    if LARGEST_FILE < s.len() {
        return Err(Fault::OverLimit.at(0));
    }
    let end = name_end(s)?;
    let mut head = [0u32; 9];
    let at = read_run(s, end, &OPENING, &mut head)?;
    let shadings = read_shadings(s, at, head[8])?;
    read_closing(s, shadings.next, end - 2, head, shadings.value)
}
