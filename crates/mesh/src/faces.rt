// The coded faces of a base mesh (clause 9.6.1.2.4.6): a shading id, then three corners of the fields that it asks for.
ghost use Rattle.std.specs.Prelude.{◌≡◌, [], ◌∷◌, ◌*◌, ◌^◌, ◌<◌, ◌≤◌, get_or};
ghost use Rattle.coder.specs.Bytes.{bit_at};
ghost use Rattle.coder.specs.Histogram.{sum};
ghost use Rattle.coder.specs.Interval.{Inverted};
ghost use Rattle.coder.specs.Reading.{taken_histogram};
ghost use Rattle.mesh.specs.Corners.{corner_fields, present, range_of};
ghost use Rattle.mesh.specs.Faces.{corners_from, faces_of, field_from, shading_from};
ghost use Rattle.mesh.specs.Shading.{shading_limit};
ghost use Rattle.mesh.specs.Inside.{CornersInverted, ReadInverted, corners_given, faces_given, found_given, stored_faces, stored_words};

use crate::declaration::Declaration;
use crate::shading::LAYERS;
use crate::tables::{FACES, TABLES, TEXTURE};
use coder::histogram::{SYMBOLS, fresh_histogram};
use coder::interval::Coder;
use coder::read::Found;
use fields::refusal::Fault;
use fields::words::put;

// The words of a corner: position, normal, diffuse color, specular color, texture layers.
pub const CORNER_FIELDS: usize = 4 + LAYERS;

// The words of a face's record: its shading, and three corners.
pub const FACE_WORDS: usize = 1 + 3 * CORNER_FIELDS;

// A corner's field that the face does not have.
pub const ABSENT: u32 = 0xFFFFFFFF;

// What a face asks of its corners.
#[derive(Clone, Copy, Debug, PartialEq, Eq)]
pub struct CornerForm {
    pub mesh_attributes: u32,
    pub shading_attributes: u32,
    pub layer_count: u32,
    // Base counts of faces, positions, normals, diffuse colors, specular colors, texture coordinates.
    // Kept: `range_of` picks one by the number of a field.
    pub counts: [u32; TABLES],
}

// Whether a corner has a field.
fn is_present(form: CornerForm, field: usize) -> bool
    ensures { result ≡ present form field }
{
    match field {
        0 => true,
        1 => form.mesh_attributes % 2 == 0,
        2 => form.shading_attributes % 2 == 1,
        3 => form.shading_attributes / 2 % 2 == 1,
        _ => field - 4 < form.layer_count as usize,
    }
}

// The base count that a field's number is below.
fn range_of(form: CornerForm, field: usize) -> u32
    ensures { result ≡ range_of form field }
{
    if field < 4 {
        form.counts[field + 1]
    } else {
        form.counts[TEXTURE]
    }
}

// Reads a field of a corner, where the face has it.
fn take_field(form: CornerForm, field: usize, input: &[u8], state: Coder) -> Result<Found, Fault>
    requires { Inverted state (bit_at input.now) }
    ensures result_value { found_given result ≡ field_from form field input.now state }
    ensures read_inverted { ReadInverted input.now result }
{
    if is_present(form, field) {
        state.take_static(input, range_of(form, field))
    } else {
        Ok(Found {
            value: ABSENT,
            state,
        })
    }
}

// Reads the three corners of a face, and stores their words from `at` on where there is room; hands out the state after them.
fn read_corners(
    form: CornerForm,
    input: &[u8],
    state: Coder,
    table: &mut [u32],
    at: usize,
) -> Result<Coder, Fault>
    requires { Inverted state (bit_at input.now) × (at < 2 ^ 40) }
    ensures table_after { corners_given result table.new ≡ stored_words table.old at (corners_from form (3 * corner_fields) 0 input.now state) }
    ensures corners_inverted { CornersInverted input.now result }
{
    let mut s = state;
    for n in 0..3 * CORNER_FIELDS {
        let found = take_field(form, n % CORNER_FIELDS, input, s)?;
        put(table, at + n, found.value);
        s = found.state;
    }
    Ok(s)
}

// Reads a face's shading id, which is below the shading count.
fn take_shading(
    input: &[u8],
    state: Coder,
    histogram: &mut [u32; SYMBOLS],
    total: &mut u32,
    shading_count: u32,
) -> Result<Found, Fault>
    requires { Inverted state (bit_at input.now) × (total.old ≡ sum histogram.old) }
    ensures result_value { found_given result ≡ shading_from shading_count (histogram.old ∷ []) input.now state }
    ensures read_inverted { ReadInverted input.now result }
    ensures histogram_after { (histogram.new ≡ taken_histogram histogram.old input.now state) × (total.new ≡ sum histogram.new) }
{
    let found = state.take_dynamic(input, histogram, total)?;
    if shading_count <= found.value {
        return Err(Fault::OutOfRange);
    }
    Ok(found)
}

// Reads the faces that are coded in `input` from its start on, and stores their records where there is room.
pub(crate) fn read_faces(
    input: &[u8],
    declaration: Declaration,
    counts: [u32; TABLES],
    table: &mut [u32],
) -> Result<(), Fault>
    requires { declaration.shading_count ≤ shading_limit }
    ensures { faces_given result table.new ≡ stored_faces table.old 0 (faces_of declaration counts (get_or counts 0 0) input.now) }
{
    let mut histogram = fresh_histogram();
    let mut total: u32 = 1;
    let mut s = Coder::fresh();
    for i in 0..counts[FACES] as usize {
        let found = take_shading(
            input,
            s,
            &mut histogram,
            &mut total,
            declaration.shading_count,
        )?;
        put(table, FACE_WORDS * i, found.value);
        let shading = declaration.shadings[found.value as usize];
        let form = CornerForm {
            mesh_attributes: declaration.attributes,
            shading_attributes: shading.attributes,
            layer_count: shading.layer_count,
            counts,
        };
        s = read_corners(form, input, found.state, table, FACE_WORDS * i + 1)?;
    }
    Ok(())
}
