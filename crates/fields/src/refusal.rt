// A refusal: its fault and its place. Beside each fault stands its sentence of document 01, "Numbers given back", as document 02 amends
// it: what is said to be below is below it there.
ghost use Rattle.std.specs.Prelude.{◌≡◌};
ghost use Rattle.fields.specs.Numbers.{fault_number};

// Why something is refused. Its number is document 01's, where 0 is "done".
#[derive(Clone, Copy, Debug, PartialEq, Eq)]
pub enum Fault {
    // the bytes end before a field, data, meta data or padding does, or a coded value's settled bits pass the end of the data
    Truncated = 1,

    // the first block isn't 0x00443355 with the profile's data size and major version 0
    BadHeader = 2,

    // file size field differs from the file's length, or declaration size exceeds that length
    BadSize = 3,

    // a profile bit other than 0x2 and 0x8 is set
    BadProfile = 4,

    // a padding byte isn't 0
    BadPadding = 5,

    // block type not on the list below
    UnknownType = 6,

    // chains deeper than 4; chain contents that don't fill it exactly (a field or block passing its end is 7, not 1); chain type above 2;
    // chain attributes not 0
    BadChain = 7,

    // a name above 255 bytes, or a continuation's name unlike its declaration's
    BadName = 8,

    // a file, mesh data or coder buffer above 16 MiB (place 0, judged first); in a file, a count above its limit, or bone count not 0
    OverLimit = 9,

    // shading or corner number not below its count; static range 0; static value not below its range; dynamic value above 255
    OutOfRange = 10,

    // blocks out of order, chain index not 0, base counts that disagree with the declaration
    OutOfOrder = 11,

    // a lent buffer or table can't hold the result
    NoRoom = 12,

    // climb text or step table not of the form below
    BadSteps = 13,

    // a step not allowed by the rules below
    NotAllowed = 14,

    // present counts disagree with the list
    CountsDisagree = 15,

    // no step that way
    NoStep = 16,

    // bytes left after a declaration's last field
    BytesLeft = 17,

    // table records not as the step needs them; a coder state or histogram not well formed
    BadState = 18,
}

impl Fault {
    // The refusal for this fault at that place.
    pub fn at(self, place: usize) -> Refusal
        ensures { result ≡ record { fault = self; place = place } }
    {
        Refusal { fault: self, place }
    }
}

impl From<Fault> for u32 {
    ghost from_gives = { λ fault number. number ≡ fault_number fault };

    fn from(fault: Fault) -> u32 {
        fault as u32
    }
}

#[derive(Clone, Copy, Debug, PartialEq, Eq)]
pub struct Refusal {
    pub fault: Fault,
    pub place: usize,
}
