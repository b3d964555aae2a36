// The head of a base mesh continuation (clauses 9.6.1.2.1 to 9.6.1.2.3): name, chain index and six base counts.
ghost use Rattle.std.specs.Prelude.{◌≡◌, ◌≤◌, length};
ghost use Rattle.fields.specs.Judged.{given};
ghost use Rattle.fields.specs.Limits.{largest_file};
ghost use Rattle.mesh.specs.Base.{base_count, base_rules, head_of};

use crate::declaration::{Declaration, mesh_name};
use crate::run::{Ended, Rule, UNJUDGED, name_end, read_run};
use crate::tables::TABLES;
use fields::limits::LARGEST_COUNT;
use fields::name::is_same;
use fields::refusal::{Fault, Refusal};

// The rule of a base count.
fn base_count(least: u32, most: u32) -> Rule
    ensures { result ≡ base_count least most }
{
    Rule {
        limit: LARGEST_COUNT,
        least,
        most,
    }
}

// The rules of the fields after the name.
fn base_rules(declaration: Declaration) -> [Rule; 7]
    ensures { result ≡ base_rules declaration }
{
    let [faces, positions, normals, diffuse, specular, texture] = declaration.counts;
    let minimum = declaration.minimum_resolution;
    let chain_index = Rule {
        most: 0,
        ..UNJUDGED
    };
    [
        chain_index,
        base_count(0, faces),
        base_count(minimum, positions.min(minimum)),
        base_count(0, normals),
        base_count(0, diffuse),
        base_count(0, specular),
        base_count(0, texture),
    ]
}

// The base counts, and where the pools start: after the name, like the declaration's, chain index and six base counts.
pub(crate) fn read_head(
    s: &[u8],
    name: &[u8],
    declaration: Declaration,
) -> Result<Ended<[u32; TABLES]>, Refusal>
    requires { length s.now ≤ largest_file }
    ensures { given result ≡ head_of s.now name.now declaration }
{
    let end = name_end(s)?;
    if !is_same(mesh_name(s), name) {
        return Err(Fault::BadName.at(0));
    }
    let mut fields = [0u32; 7];
    let next = read_run(s, end, &base_rules(declaration), &mut fields)?;
    let [_, faces, positions, normals, diffuse, specular, texture] = fields;
    let value = [faces, positions, normals, diffuse, specular, texture];
    Ok(Ended { value, next })
}
