// A stored file: the lengths of the face table, the position table and the step table; the sizes of the declaration's data, the
// continuation's data and the climb text; these three parts; and to the end calls of three numbers. Every number is a U32.
use fields::field::{bytes_at, field_at};
use progressive::counts::Counts;
use progressive::refine::Direction;
use progressive::requests::StepRequest;

const HEAD_SIZE: usize = 24;

// The bytes of a call.
pub const CALL_SIZE: usize = 12;

// The lengths of the tables, in numbers.
#[derive(Clone, Copy, Debug, PartialEq, Eq)]
pub struct Lengths {
    pub faces: usize,
    pub positions: usize,
    pub steps: usize,
}

// A file's parts; each is empty where the file ends before it does.
#[derive(Clone, Copy)]
pub struct Stored<'a> {
    pub lengths: Lengths,
    pub declaration: &'a [u8],
    pub continuation: &'a [u8],
    pub text: &'a [u8],
    pub calls: &'a [u8],
}

// What is done. A request may begin a walk, or go on with one.
#[derive(Clone, Copy, Debug, PartialEq, Eq)]
pub enum Call {
    Step(Direction),
    SetFace { at: usize, word: u32 },
    SetPosition { at: usize, word: u32 },
    SetStep { at: usize, word: u32 },
    FillSteps { from: usize, word: u32 },
    SetCounts(Counts),
    SetShadings(u32),
    LendSteps(usize),
    LendTables { faces: usize, positions: usize },
    Breathe { times: u32, limit: u32 },
    Walk(StepRequest),
    WalkOn(StepRequest),
}

// The number at an offset, 0 where the file ends before it does.
fn word_at(file: &[u8], at: usize) -> u32 {
    field_at(file, at).unwrap_or(0)
}

fn size_at(file: &[u8], at: usize) -> usize {
    word_at(file, at) as usize
}

impl Stored<'_> {
    pub(crate) fn of(file: &[u8]) -> Stored {
        let declaration_size = size_at(file, 12);
        let continuation_size = size_at(file, 16);
        let text_size = size_at(file, 20);
        let continuation_at = HEAD_SIZE.wrapping_add(declaration_size);
        let text_at = continuation_at.wrapping_add(continuation_size);
        let calls_at = text_at.wrapping_add(text_size);
        Stored {
            lengths: Lengths {
                faces: size_at(file, 0),
                positions: size_at(file, 4),
                steps: size_at(file, 8),
            },
            declaration: bytes_at(file, HEAD_SIZE, declaration_size),
            continuation: bytes_at(file, continuation_at, continuation_size),
            text: bytes_at(file, text_at, text_size),
            calls: file.get(calls_at..).unwrap_or(&[]),
        }
    }
}

impl Lengths {
    // Whether each table has at most so many words.
    pub(crate) fn are_within(self, room: usize) -> bool {
        self.faces <= room && self.positions <= room && self.steps <= room
    }
}

// The request of two numbers.
fn request(direction: u32, count: u32) -> StepRequest {
    StepRequest { direction, count }
}

impl Call {
    // The call of an operation and its two numbers; none where there is no such operation.
    fn new(operation: u32, a: u32, b: u32) -> Option<Call> {
        let call = match operation {
            0 => Call::Step(Direction::Up),
            1 => Call::Step(Direction::Down),
            2 => Call::SetFace {
                at: a as usize,
                word: b,
            },
            3 => Call::SetPosition {
                at: a as usize,
                word: b,
            },
            4 => Call::SetStep {
                at: a as usize,
                word: b,
            },
            5 => Call::SetCounts(Counts {
                positions: a,
                faces: b,
            }),
            6 => Call::SetShadings(a),
            7 => Call::LendSteps(a as usize),
            8 => Call::Breathe { times: a, limit: b },
            9 => Call::LendTables {
                faces: a as usize,
                positions: b as usize,
            },
            10 => Call::FillSteps {
                from: a as usize,
                word: b,
            },
            11 => Call::Walk(request(a, b)),
            12 => Call::WalkOn(request(a, b)),
            _ => return None,
        };
        Some(call)
    }

    // The call of three numbers.
    pub(crate) fn of(bytes: &[u8]) -> Option<Call> {
        Call::new(word_at(bytes, 0), word_at(bytes, 4), word_at(bytes, 8))
    }
}
