// Steps of a progressive mesh, up and down.
ghost use Rattle.std.specs.Prelude.{◌≡◌};
ghost use Rattle.progressive.specs.Steps.{coarsened, refined};
ghost use Rattle.oysterfold.specs.Steps.{handed, handed_by, step_into};

// One step up (01: up). `counts` holds the present numbers of positions and faces, and is changed only where the answer is 0.
#[unsafe(no_mangle)]
pub extern "C" fn oysterfold_up(
    list: &[u32],
    shadings: u32,
    faces: &mut [u32],
    positions: &mut [u32],
    counts: &mut [u32],
) -> u32
    ensures { handed result faces.new positions.new counts.new ≡ handed_by (step_into (refined list.now shadings) faces.old positions.old counts.old) faces.old positions.old counts.old }
{
    oysterfold::steps::oysterfold_up(list, shadings, faces, positions, counts)
}

// One step down (01: down).
#[unsafe(no_mangle)]
pub extern "C" fn oysterfold_down(
    list: &[u32],
    shadings: u32,
    faces: &mut [u32],
    positions: &mut [u32],
    counts: &mut [u32],
) -> u32
    ensures { handed result faces.new positions.new counts.new ≡ handed_by (step_into (coarsened list.now shadings) faces.old positions.old counts.old) faces.old positions.old counts.old }
{
    oysterfold::steps::oysterfold_down(list, shadings, faces, positions, counts)
}
