// The kinds of blocks, by block type.
ghost use Rattle.std.specs.Prelude.{◌≡◌, ◌/◌, ◌-◌, ◌^◌, ◌%◌, false, eqb, ltb};
ghost use Rattle.fields.specs.Judged.{pick};
ghost use Rattle.blocks.specs.Kind.{known_types, kind_of, is_chain, is_continuation};

pub const FILE_HEADER: u32 = 0x00443355;

pub const MODIFIER_CHAIN: u32 = 0xFFFFFF14;

// The known types but the header's are this one and a last byte.
pub const KNOWN_TYPES: u32 = 0xFFFFFF00;

// The known types of a kind, by their last bytes: a bit for each.
const DECLARATIONS: u128 = 1 << 0x12
    | 1 << 0x14
    | 1 << 0x16
    | 0xF << 0x21
    | 1 << 0x31
    | 3 << 0x36
    | 0x3F << 0x41
    | 0x3F << 0x51;

const CONTINUATIONS: u128 = 1 << 0x15 | 3 << 0x3B | 3 << 0x3E | 1 << 0x5C;

#[derive(Clone, Copy, Debug, PartialEq, Eq)]
pub enum Kind {
    Header,
    Declaration(u32),
    Continuation(u32),
    Unknown,
}

// Whether a type is KNOWN_TYPES and a last byte whose bit is set.
fn has(types: u128, block_type: u32) -> bool
    ensures { result ≡ pick (ltb block_type known_types) false (eqb (types / 2 ^ (block_type - known_types) % 2) 1) }
{
    if block_type < KNOWN_TYPES {
        return false;
    }
    let last = block_type - KNOWN_TYPES;
    last < u128::BITS && types >> last & 1 == 1
}

// The kind of a block type.
pub fn kind_of(block_type: u32) -> Kind
    ensures { result ≡ kind_of block_type }
{
    match block_type {
        FILE_HEADER => Kind::Header,
        _ if has(DECLARATIONS, block_type) => Kind::Declaration(block_type),
        _ if has(CONTINUATIONS, block_type) => Kind::Continuation(block_type),
        _ => Kind::Unknown,
    }
}

pub(crate) fn is_chain(kind: Kind) -> bool
    ensures { result ≡ is_chain kind }
{
    match kind {
        Kind::Declaration(block_type) => block_type == MODIFIER_CHAIN,
        _ => false,
    }
}

pub(crate) fn is_continuation(kind: Kind) -> bool
    ensures { result ≡ is_continuation kind }
{
    matches!(kind, Kind::Continuation(_))
}
