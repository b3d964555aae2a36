// The present counts.

// The present numbers of positions and faces.
#[derive(Clone, Copy, Debug, PartialEq, Eq)]
pub struct Counts {
    pub positions: u32,
    pub faces: u32,
}
