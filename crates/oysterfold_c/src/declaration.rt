// Reading a mesh declaration.
ghost use Rattle.std.specs.Prelude.{◌≡◌};
ghost use Rattle.fields.specs.Judged.{number_of};
ghost use Rattle.oysterfold.specs.Declaration.{declaration_in, declaration_result, fields_after};

// Reads a mesh declaration's data; the U32 fields after the name go to `fields`. Result: place, number of fields, name offset, name
// length.
#[unsafe(no_mangle)]
pub extern "C" fn oysterfold_declaration(
    declaration: &[u8],
    fields: &mut [u32],
    res: &mut [u64],
) -> u32
    ensures value { result ≡ number_of (declaration_in declaration.now fields.old res.old) }
    ensures fields_after { fields.new ≡ fields_after (declaration_in declaration.now fields.old res.old) fields.old }
    ensures res_after { res.new ≡ declaration_result (declaration_in declaration.now fields.old res.old) res.old }
{
    oysterfold::declaration::oysterfold_declaration(declaration, fields, res)
}
