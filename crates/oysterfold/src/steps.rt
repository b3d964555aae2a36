// Steps of a progressive mesh, up and down.
ghost use Rattle.std.specs.Prelude.{◌≡◌, ◌≤◌, length};
ghost use Rattle.progressive.specs.Steps.{coarsened, refined};
ghost use Rattle.oysterfold.specs.Steps.{count_words, counts_after, counts_in, counts_put, handed, handed_by, stepped_number, step_into};

use crate::result::NO_ROOM;
use fields::refusal::Fault;
use progressive::counts::Counts;
use progressive::refine::{coarsen, refine};

// Positions, then faces.
pub(crate) const COUNT_WORDS: usize = 2;

pub(crate) fn counts_in(counts: &[u32]) -> Counts
    requires { count_words ≤ length counts.now }
    ensures { result ≡ counts_in counts.now }
{
    Counts {
        positions: counts[0],
        faces: counts[1],
    }
}

pub(crate) fn put_counts(counts: &mut [u32], present: Counts)
    requires { count_words ≤ length counts.old }
    ensures { counts.new ≡ counts_put present counts.old }
{
    counts[0] = present.positions;
    counts[1] = present.faces;
}

// The number of an answer; where it is 0 the counts after the step are stored.
// Kept: like the writers' answer but for what is stored; a function over that is no plainer.
fn answer(stepped: Result<Counts, Fault>, counts: &mut [u32]) -> u32
    requires { count_words ≤ length counts.old }
    ensures { (result ≡ stepped_number stepped) × (counts.new ≡ counts_after stepped counts.old) }
{
    match stepped {
        Err(fault) => u32::from(fault),
        Ok(after) => {
            put_counts(counts, after);
            0
        }
    }
}

// One step up (01: up). `counts` holds the present numbers of positions and faces, and is changed only where the answer is 0.
// Kept: the export of this name calls it, and C lends tables and counts each for itself.
pub fn oysterfold_up(
    list: &[u32],
    shadings: u32,
    faces: &mut [u32],
    positions: &mut [u32],
    counts: &mut [u32],
) -> u32
    ensures { handed result faces.new positions.new counts.new ≡ handed_by (step_into (refined list.now shadings) faces.old positions.old counts.old) faces.old positions.old counts.old }
{
    if counts.len() < COUNT_WORDS {
        return NO_ROOM;
    }
    let stepped = refine(list, shadings, faces, positions, counts_in(counts));
    answer(stepped, counts)
}

// One step down (01: down).
// Kept: the export of this name calls it, and C lends tables and counts each for itself.
pub fn oysterfold_down(
    list: &[u32],
    shadings: u32,
    faces: &mut [u32],
    positions: &mut [u32],
    counts: &mut [u32],
) -> u32
    ensures { handed result faces.new positions.new counts.new ≡ handed_by (step_into (coarsened list.now shadings) faces.old positions.old counts.old) faces.old positions.old counts.old }
{
    if counts.len() < COUNT_WORDS {
        return NO_ROOM;
    }
    let stepped = coarsen(list, shadings, faces, positions, counts_in(counts));
    answer(stepped, counts)
}
