// The base mesh (clause 9.6.1.2), judged whole before anything is stored.
ghost use Rattle.std.specs.Prelude.{◌≡◌, suc, ◌≤◌, ◌<◌, length};
ghost use Rattle.fields.specs.Judged.{given};
ghost use Rattle.fields.specs.Limits.{largest_file};
ghost use Rattle.mesh.specs.Base.{answered, base_of, held, left, mesh_given, mesh_in, sized, table_of, tables_after, words_in};
ghost use Rattle.mesh.specs.Inside.{ContentsFit, FacesFit, JudgedFits, base_faces, contents_at, counts_from, judged_given, placed, pool_at, pool_numbers};
ghost use Rattle.mesh.specs.Shading.{shading_limit};

use crate::declaration::{Declaration, mesh_name, read_declaration};
use crate::faces::read_faces;
use crate::head::read_head;
use crate::run::{Ended, read_run};
use crate::tables::{FACES, POOLS, TABLES, Tables, has_room, words_before, words_in};
use fields::limits::LARGEST_FILE;
use fields::refusal::{Fault, Refusal};

// The part that a place counts from.
#[derive(Clone, Copy, Debug, PartialEq, Eq)]
pub enum Part {
    Declaration,
    Continuation,
}

// The base counts, and the shading count.
#[derive(Clone, Copy, Debug, PartialEq, Eq)]
pub struct MeshCounts {
    pub faces: u32,
    pub positions: u32,
    pub normals: u32,
    pub diffuse: u32,
    pub specular: u32,
    pub texture: u32,
    pub shadings: u32,
}

// Why a mesh is refused.
#[derive(Clone, Copy, Debug, PartialEq, Eq)]
pub struct MeshRefusal {
    pub part: Part,
    pub refusal: Refusal,
}

// Whether a part is not too large.
fn sized(s: &[u8]) -> Result<(), Refusal>
    ensures { given result ≡ sized s.now }
{
    if LARGEST_FILE < s.len() {
        return Err(Fault::OverLimit.at(0));
    }
    Ok(())
}

// An answer on a part.
fn in_part<T>(part: Part, answer: Result<T, Refusal>) -> Result<T, MeshRefusal>
    ensures { result ≡ placed part answer }
{
    match answer {
        Ok(value) => Ok(value),
        Err(refusal) => Err(MeshRefusal { part, refusal }),
    }
}

// Judges the pools, which start at `at`, and the faces after them; hands out the counts, and where the pools start.
// Kept: that the shading count is within its limit, in four contracts, since `Declarable` of mesh_theorems builds declarations as records.
fn judge_contents(
    s: &[u8],
    declaration: Declaration,
    counts: [u32; TABLES],
    at: usize,
) -> Result<Ended<[u32; TABLES]>, Refusal>
    requires { (at ≤ length s.now) × (declaration.shading_count ≤ shading_limit) }
    ensures result_value { judged_given s.now declaration result ≡ contents_at s.now declaration counts at }
    ensures contents_fit { ContentsFit s.now declaration counts at result }
{
    let faces_at = at + 4 * words_before(counts, POOLS);
    if s.len() < faces_at {
        return Err(Fault::Truncated.at(at + (s.len() - at) / 4 * 4));
    }
    match read_faces(&s[faces_at..], declaration, counts, &mut []) {
        Err(fault) => Err(fault.at(faces_at)),
        Ok(()) => Ok(Ended {
            value: counts,
            next: at,
        }),
    }
}

// Judges a continuation under its declaration, for tables of these lengths.
fn judge_base(
    s: &[u8],
    name: &[u8],
    declaration: Declaration,
    lengths: [usize; TABLES],
) -> Result<Ended<[u32; TABLES]>, Refusal>
    requires { (length s.now ≤ largest_file) × (declaration.shading_count ≤ shading_limit) }
    ensures result_value { judged_given s.now declaration result ≡ base_of s.now name.now declaration lengths }
    ensures judged_fits { JudgedFits s.now declaration lengths result }
{
    let head = read_head(s, name, declaration)?;
    if !has_room(lengths, head.value) {
        return Err(Fault::NoRoom.at(0));
    }
    judge_contents(s, declaration, head.value, head.next)
}

// Fills the table of pool k, from 0 on.
fn fill_pool(s: &[u8], counts: [u32; TABLES], at: usize, k: usize, table: &mut [u32])
    requires k_bound { (k < 5) × (pool_at at counts (suc k) ≤ length s.now) × (words_in counts (suc k) ≤ length table.old) }
    requires s_len_bound { length s.now ≤ largest_file }
    ensures { table.new ≡ table_of (pool_numbers s.now at counts k) table.old }
{
    let from = at + 4 * words_before(counts, k);
    let (pool, rest) = table.split_at_mut(words_in(counts, k + 1));
    let _ = read_run(s, from, &[], pool);
    rest.fill(0);
}

// Fills the table of faces.
fn fill_faces(
    s: &[u8],
    declaration: Declaration,
    counts: [u32; TABLES],
    at: usize,
    table: &mut [u32],
)
    requires faces_fit { FacesFit s.now declaration counts at (length table.old) }
    requires shading_count_bound { declaration.shading_count ≤ shading_limit }
    ensures { table.new ≡ table_of (base_faces s.now declaration counts at) table.old }
{
    let from = at + 4 * words_before(counts, POOLS);
    let _ = read_faces(&s[from..], declaration, counts, table);
    let (_, room) = table.split_at_mut(words_in(counts, FACES));
    room.fill(0);
}

fn counts_of(counts: [u32; TABLES], shadings: u32) -> MeshCounts
    ensures { result ≡ counts_from counts shadings }
{
    let [faces, positions, normals, diffuse, specular, texture] = counts;
    MeshCounts {
        faces,
        positions,
        normals,
        diffuse,
        specular,
        texture,
        shadings,
    }
}

// Reads a mesh from the data of its declaration and of its base mesh continuation. A refusal leaves the tables as they were; else
// each holds its entries, and zeros after them. A face's record is its shading, and three corners of position, normal, diffuse
// color, specular color and texture layers.
pub fn read_mesh(
    declaration: &[u8],
    continuation: &[u8],
    tables: Tables<'_>,
) -> Result<MeshCounts, MeshRefusal>
    ensures result_value { mesh_given result ≡ answered (mesh_in declaration.now continuation.now (held tables.entry)) }
    ensures left { left tables.exit ≡ tables_after (mesh_in declaration.now continuation.now (held tables.entry)) (held tables.entry) }
{
    in_part(Part::Declaration, sized(declaration))?;
    in_part(Part::Continuation, sized(continuation))?;
    let fields = in_part(Part::Declaration, read_declaration(declaration))?;
    let name = mesh_name(declaration);
    let base = in_part(
        Part::Continuation,
        judge_base(continuation, name, fields, tables.lengths()),
    )?;
    let counts = base.value;
    let at = base.next;
    fill_pool(continuation, counts, at, 0, tables.positions);
    fill_pool(continuation, counts, at, 1, tables.normals);
    fill_pool(continuation, counts, at, 2, tables.diffuse);
    fill_pool(continuation, counts, at, 3, tables.specular);
    fill_pool(continuation, counts, at, 4, tables.texture);
    fill_faces(continuation, fields, counts, at, tables.faces);
    Ok(counts_of(counts, fields.shading_count))
}
