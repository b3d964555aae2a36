// The shading descriptions of a mesh declaration (clause 9.6.1.1.3.9).
ghost use Rattle.std.specs.Prelude.{◌≡◌, ◌≤◌};
ghost use Rattle.fields.specs.Judged.{given};
ghost use Rattle.mesh.specs.Shading.{no_shading, no_shadings, shading_at, shading_limit, shadings_at};
ghost use Rattle.mesh.specs.Inside.{stored_shadings};

use crate::run::{Ended, Rule, UNJUDGED, read_run};
use fields::field::field_at;
use fields::refusal::{Fault, Refusal};

// The most texture layers of a shading.
pub const LAYERS: usize = 2;

// The most shadings of a mesh.
pub const SHADINGS: usize = 64;

// The rules of attributes and layer count.
const RULES: [Rule; 2] = [
    Rule {
        most: 3,
        ..UNJUDGED
    },
    Rule {
        limit: LAYERS as u32,
        ..UNJUDGED
    },
];

// A shading description; the dimensions of layers past the layer count are 0.
#[derive(Clone, Copy, Debug, PartialEq, Eq)]
pub struct Shading {
    // Bit 0 diffuse colors, bit 1 specular colors.
    pub attributes: u32,
    pub layer_count: u32,
    pub dimensions: [u32; LAYERS],
    pub original_id: u32,
}

fn no_shading() -> Shading
    ensures { result ≡ no_shading }
{
    Shading {
        attributes: 0,
        layer_count: 0,
        dimensions: [0; LAYERS],
        original_id: 0,
    }
}

fn no_shadings() -> [Shading; SHADINGS]
    ensures { result ≡ no_shadings }
{
    [no_shading(); SHADINGS]
}

// The shading description at `from`: attributes, layer count, a dimension for each layer, original shading id.
fn read_shading(s: &[u8], from: usize) -> Result<Ended<Shading>, Refusal>
    ensures { given result ≡ shading_at s.now from }
{
    let mut head = [0u32; 2];
    let at = read_run(s, from, &RULES, &mut head)?;
    let [attributes, layer_count] = head;
    let mut dimensions = [0u32; LAYERS];
    let last = read_run(s, at, &[], &mut dimensions[..layer_count as usize])?;
    let Some(original_id) = field_at::<u32>(s, last) else {
        return Err(Fault::Truncated.at(last));
    };
    let value = Shading {
        attributes,
        layer_count,
        dimensions,
        original_id,
    };
    Ok(Ended {
        value,
        next: last + 4,
    })
}

// Reads `count` shading descriptions from `from` on, up to the first that is refused.
pub(crate) fn read_shadings(
    s: &[u8],
    from: usize,
    count: u32,
) -> Result<Ended<[Shading; SHADINGS]>, Refusal>
    requires { count ≤ shading_limit }
    ensures { given result ≡ stored_shadings no_shadings 0 (shadings_at count s.now from) }
{
    let mut shadings = no_shadings();
    let mut at = from;
    for i in 0..count as usize {
        let shading = read_shading(s, at)?;
        shadings[i] = shading.value;
        at = shading.next;
    }
    Ok(Ended {
        value: shadings,
        next: at,
    })
}
