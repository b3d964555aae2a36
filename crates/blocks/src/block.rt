// A block judged up to its contents: its leading numbers, place, depth and room, and a chain's own fields.
ghost use Rattle.std.specs.Prelude.{◌≡◌, ◌+◌, ◌≤◌, length};
ghost use Rattle.fields.specs.Limits.{largest_file};
ghost use Rattle.fields.specs.Judged.{given};
ghost use Rattle.blocks.specs.Head.{head_size};
ghost use Rattle.blocks.specs.Block.{standing_of, contents_at, judged_at, block_at, block_in};
ghost use Rattle.blocks.specs.Inside.{stands_at};

use crate::chain::{Run, chain_at, in_chain};
use crate::head::{Extent, HEAD_SIZE, Head, extent_of, head_at, room};
use crate::kind::{Kind, is_chain, kind_of};
use fields::limits::LARGEST_FILE;
use fields::refusal::{Fault, Refusal};

// How many chains may stand within one another.
pub const LEVELS: u32 = 4;

// A block: its kind, its leading numbers, where its parts end, and the blocks inside it, none but in a chain.
#[derive(Clone, Copy, Debug, PartialEq, Eq)]
pub struct Block {
    pub kind: Kind,
    pub head: Head,
    pub extent: Extent,
    pub contents: Run,
}

// Refuses a block that may not stand at `at`. `remaining` chains may still be entered, and `continued` says that a
// continuation stands before it.
fn standing(at: usize, kind: Kind, remaining: u32, continued: bool) -> Result<(), Refusal>
    ensures { given result ≡ stands_at (standing_of kind remaining continued) at }
{
    match kind {
        Kind::Unknown => Err(Fault::UnknownType.at(at)),
        Kind::Header => Err(Fault::OutOfOrder.at(at)),
        Kind::Continuation(_) if remaining == LEVELS => Ok(()),
        Kind::Continuation(_) => Err(Fault::OutOfOrder.at(at)),
        Kind::Declaration(_) if continued => Err(Fault::OutOfOrder.at(at)),
        Kind::Declaration(_) if is_chain(kind) && remaining == 0 => Err(Fault::BadChain.at(at)),
        Kind::Declaration(_) => Ok(()),
    }
}

// The block at `at` with its contents. Its room has been judged.
fn with_contents(
    s: &[u8],
    at: usize,
    kind: Kind,
    head: Head,
    extent: Extent,
) -> Result<Block, Refusal>
    requires { (at + head_size ≤ extent.data_end) × (extent.data_end ≤ length s.now) }
    ensures { given result ≡ contents_at s.now at kind head extent }
{
    let end = extent.data_end;
    let contents = if is_chain(kind) {
        in_chain(chain_at(&s[..end], at + HEAD_SIZE))?
    } else {
        Run { at: end, count: 0 }
    };
    Ok(Block {
        kind,
        head,
        extent,
        contents,
    })
}

// The block at `at`, whose leading numbers have been read.
fn judged(
    s: &[u8],
    at: usize,
    head: Head,
    remaining: u32,
    continued: bool,
) -> Result<Block, Refusal>
    requires { (at + head_size ≤ length s.now) × (length s.now ≤ largest_file) }
    ensures { given result ≡ judged_at s.now at head remaining continued }
{
    let kind = kind_of(head.block_type);
    standing(at, kind, remaining, continued)?;
    let extent = extent_of(at, head);
    room(s.len(), at, extent)?;
    with_contents(s, at, kind, head, extent)
}

// The block at `at`. `remaining` chains may still be entered, and `continued` says that a continuation stands before it.
pub(crate) fn block_at(
    s: &[u8],
    at: usize,
    remaining: u32,
    continued: bool,
) -> Result<Block, Refusal>
    requires { length s.now ≤ largest_file }
    ensures { given result ≡ block_at s.now at remaining continued }
{
    let head = head_at(s, at)?;
    judged(s, at, head, remaining, continued)
}

// The block at `at` of a file: LEVELS `remaining` at the top, and more are refused. Of a block inside a chain the bytes are lent up to
// the chain's end, and one less remains for each chain around it.
pub fn read_block(file: &[u8], at: usize, remaining: u32, continued: bool) -> Result<Block, Refusal>
    ensures { given result ≡ block_in file.now at remaining continued }
{
    if LARGEST_FILE < file.len() {
        return Err(Fault::OverLimit.at(0));
    }
    if LEVELS < remaining {
        return Err(Fault::BadChain.at(at));
    }
    let block = block_at(file, at, remaining, continued);
    if remaining == LEVELS {
        block
    } else {
        in_chain(block)
    }
}
