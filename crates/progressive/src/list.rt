// A list that has its form.
ghost use Rattle.progressive.specs.Marks.{Marked};

use crate::form::StepSpot;

// A step table that has its form, and the steps of it that are noted: every MARK_STEPS of them, as far as there is room.
#[derive(Clone, Copy)]
pub struct MarkedList<'a> {
    pub steps: &'a [u32],
    pub marks: &'a [StepSpot],
    ghost marked: { Marked steps.now marks.now },
}
