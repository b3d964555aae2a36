// Many steps of a progressive mesh in one call (02, Ask 6).
ghost use Rattle.std.specs.Prelude.{◌≡◌};
ghost use Rattle.oysterfold.specs.Requests.{steps_into, walk_handed};

use crate::result::{NO_ROOM, RESULT_WORDS, put_words};
use crate::steps::{COUNT_WORDS, counts_in, put_counts};
use progressive::requests::{Progress, StepRequest, step_all};

// A walk over the requests, to the first refusal. This call only keeps the steps granted before a refusal, and tells them.
pub fn oysterfold_steps(
    list: &[u32],
    shadings: u32,
    requests: &[StepRequest],
    faces: &mut [u32],
    positions: &mut [u32],
    counts: &mut [u32],
    res: &mut [u64],
) -> u32
    ensures { walk_handed result faces.new positions.new counts.new res.new
        ≡ steps_into list.now shadings requests.now
        faces.old positions.old counts.old res.old }
{
    if res.len() < RESULT_WORDS {
        return NO_ROOM;
    }
    if counts.len() < COUNT_WORDS {
        put_words(res, &[0, 0]);
        return NO_ROOM;
    }
    let start = Progress::from(counts_in(counts));
    let progress = step_all(requests, list, shadings, faces, positions, start);
    put_counts(counts, progress.counts);
    put_words(res, &[0, progress.granted]);
    progress.number
}
