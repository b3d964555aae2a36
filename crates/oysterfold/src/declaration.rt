// Reading a mesh declaration.
ghost use Rattle.std.specs.Prelude.{◌≡◌, ◌+◌, ◌*◌, ◌≤◌, length};
ghost use Rattle.std.proofs.lemmas.List.Edits.{sets};
ghost use Rattle.fields.specs.Judged.{refused, number_of};
ghost use Rattle.fields.specs.Numbers.{fault_number};
ghost use Rattle.oysterfold.specs.Declaration.{declaration_in, declaration_result, fields_after, fields_in, fields_words, name_end, result_words, words_at};

use crate::result::{NO_ROOM, put_words};
use fields::field::field_at;
use fields::refusal::{Fault, Refusal};
use mesh::declaration::read_declaration;

// Place, number of fields, name offset, name length.
const RESULT_WORDS: usize = 4;

// The name stands after the two bytes of its length.
const NAME_OFFSET: usize = 2;

// Bytes of a U32 field.
const FIELD_SIZE: usize = 4;

// Stores the `count` fields from `from` on at the start of `fields`.
fn put_fields(s: &[u8], from: usize, count: usize, fields: &mut [u32])
    requires { (from + 4 * count ≤ length s.now) × (count ≤ length fields.old) }
    ensures { fields.new ≡ sets fields.old 0 (words_at count s.now from) }
{
    for i in 0..count {
        fields[i] = field_at(s, from + FIELD_SIZE * i).unwrap_or(0);
    }
}

// Tells a refusal: its place, and 0 for the rest.
fn tell_refused(res: &mut [u64], e: Refusal) -> u32
    requires { result_words ≤ length res.old }
    ensures value { result ≡ fault_number e.fault }
    ensures res_after { res.new ≡ sets res.old 0 (fields_words (refused (fault_number e.fault) e.place)) }
{
    put_words(res, &[e.place as u64, 0, 0, 0]);
    u32::from(e.fault)
}

// Hands out the fields of a declaration that is read, after a name of `size` bytes.
fn hand_out(s: &[u8], size: usize, fields: &mut [u32], res: &mut [u64]) -> u32
    requires { (name_end size ≤ length s.now) × (result_words ≤ length res.old) }
    ensures value { result ≡ number_of (fields_in s.now fields.old size) }
    ensures fields_after { fields.new ≡ fields_after (fields_in s.now fields.old size) fields.old }
    ensures res_after { res.new ≡ sets res.old 0 (fields_words (fields_in s.now fields.old size)) }
{
    let from = NAME_OFFSET + size;
    let count = (s.len() - from) / FIELD_SIZE;
    if fields.len() < count {
        return tell_refused(res, Fault::NoRoom.at(0));
    }
    put_fields(s, from, count, fields);
    put_words(res, &[0, count as u64, NAME_OFFSET as u64, size as u64]);
    0
}

// Reads a mesh declaration's data; the U32 fields after the name go to `fields`. Result: place, number of fields, name offset, name
// length.
pub fn oysterfold_declaration(declaration: &[u8], fields: &mut [u32], res: &mut [u64]) -> u32
    ensures value { result ≡ number_of (declaration_in declaration.now fields.old res.old) }
    ensures fields_after { fields.new ≡ fields_after (declaration_in declaration.now fields.old res.old) fields.old }
    ensures res_after { res.new ≡ declaration_result (declaration_in declaration.now fields.old res.old) res.old }
{
    if res.len() < RESULT_WORDS {
        return NO_ROOM;
    }
    match read_declaration(declaration) {
        Err(e) => tell_refused(res, e),
        Ok(read) => hand_out(declaration, read.name_size, fields, res),
    }
}
