// Many steps of a progressive mesh in one call (02, Ask 6).
ghost use Rattle.std.specs.Prelude.{◌≡◌};
ghost use Rattle.oysterfold.specs.Requests.{steps_into, walk_handed};

use progressive::requests::StepRequest;

// A walk over the requests, to the first refusal. This call only keeps the steps granted before a refusal, and tells them.
#[unsafe(no_mangle)]
pub extern "C" fn oysterfold_steps(
    list: &[u32],
    shadings: u32,
    requests: &[StepRequest],
    faces: &mut [u32],
    positions: &mut [u32],
    counts: &mut [u32],
    res: &mut [u64],
) -> u32
    ensures { walk_handed result faces.new positions.new counts.new res.new
        ≡ steps_into list.now shadings requests.now
        faces.old positions.old counts.old res.old }
{
    oysterfold::requests::oysterfold_steps(list, shadings, requests, faces, positions, counts, res)
}
