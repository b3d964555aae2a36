// Reading a mesh.
ghost use Rattle.std.specs.Prelude.{◌≡◌};
ghost use Rattle.mesh.specs.Base.{tables, tables_after, mesh_number};
ghost use Rattle.oysterfold.specs.Mesh.{mesh_into, mesh_result};

// Reads a mesh into six tables; result: place, part (0 declaration, 1 continuation), counts of faces, positions, normals, diffuse
// colors, specular colors, texture coordinates and shadings.
#[unsafe(no_mangle)]
pub extern "C" fn oysterfold_read_mesh(
    declaration: &[u8],
    continuation: &[u8],
    faces: &mut [u32],
    positions: &mut [u32],
    normals: &mut [u32],
    diffuse: &mut [u32],
    specular: &mut [u32],
    texture: &mut [u32],
    res: &mut [u64],
) -> u32
    ensures value { result ≡ mesh_number (mesh_into declaration.now continuation.now (tables faces.old positions.old normals.old diffuse.old specular.old texture.old) res.old) }
    ensures texture_after { (tables faces.new positions.new normals.new diffuse.new specular.new texture.new) ≡ tables_after (mesh_into declaration.now continuation.now (tables faces.old positions.old normals.old diffuse.old specular.old texture.old) res.old) (tables faces.old positions.old normals.old diffuse.old specular.old texture.old) }
    ensures res_after { res.new ≡ mesh_result (mesh_into declaration.now continuation.now (tables faces.old positions.old normals.old diffuse.old specular.old texture.old) res.old) res.old }
{
    oysterfold::meshes::oysterfold_read_mesh(
        declaration,
        continuation,
        faces,
        positions,
        normals,
        diffuse,
        specular,
        texture,
        res,
    )
}
