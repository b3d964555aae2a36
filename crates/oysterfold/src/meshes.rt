// Reading a mesh.
ghost use Rattle.std.specs.Prelude.{◌≡◌};
ghost use Rattle.mesh.specs.Base.{tables, tables_after, mesh_number};
ghost use Rattle.oysterfold.specs.Mesh.{count_words, mesh_into, mesh_result, no_counts, part_number};

use crate::result::{NO_ROOM, put_words};
use mesh::base::{MeshCounts, Part, read_mesh};
use mesh::tables::Tables;

// Place, part, and the seven counts.
const RESULT_WORDS: usize = 9;

fn no_counts() -> MeshCounts
    ensures { result ≡ no_counts }
{
    MeshCounts {
        faces: 0,
        positions: 0,
        normals: 0,
        diffuse: 0,
        specular: 0,
        texture: 0,
        shadings: 0,
    }
}

// The words of place, part and counts.
fn words_of(place: u64, part: Part, counts: MeshCounts) -> [u64; RESULT_WORDS]
    ensures { result ≡ count_words place (part_number part) counts }
{
    [
        place,
        part as u64,
        u64::from(counts.faces),
        u64::from(counts.positions),
        u64::from(counts.normals),
        u64::from(counts.diffuse),
        u64::from(counts.specular),
        u64::from(counts.texture),
        u64::from(counts.shadings),
    ]
}

// Reads a mesh into six tables; result: place, part (0 declaration, 1 continuation), counts of faces, positions, normals, diffuse
// colors, specular colors, texture coordinates and shadings.
pub fn oysterfold_read_mesh(
    declaration: &[u8],
    continuation: &[u8],
    faces: &mut [u32],
    positions: &mut [u32],
    normals: &mut [u32],
    diffuse: &mut [u32],
    specular: &mut [u32],
    texture: &mut [u32],
    res: &mut [u64],
) -> u32
    ensures value { result ≡ mesh_number (mesh_into declaration.now continuation.now (tables faces.old positions.old normals.old diffuse.old specular.old texture.old) res.old) }
    ensures texture_after { (tables faces.new positions.new normals.new diffuse.new specular.new texture.new) ≡ tables_after (mesh_into declaration.now continuation.now (tables faces.old positions.old normals.old diffuse.old specular.old texture.old) res.old) (tables faces.old positions.old normals.old diffuse.old specular.old texture.old) }
    ensures res_after { res.new ≡ mesh_result (mesh_into declaration.now continuation.now (tables faces.old positions.old normals.old diffuse.old specular.old texture.old) res.old) res.old }
{
    if res.len() < RESULT_WORDS {
        return NO_ROOM;
    }
    let tables = Tables {
        faces,
        positions,
        normals,
        diffuse,
        specular,
        texture,
    };
    match read_mesh(declaration, continuation, tables) {
        Ok(counts) => {
            put_words(res, &words_of(0, Part::Declaration, counts));
            0
        }
        Err(e) => {
            put_words(res, &words_of(e.refusal.place as u64, e.part, no_counts()));
            u32::from(e.refusal.fault)
        }
    }
}
