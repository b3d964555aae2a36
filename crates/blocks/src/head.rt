// A block's three leading numbers, and where its parts end.
ghost use Rattle.std.specs.Prelude.{◌≡◌, ◌+◌, ◌≤◌, ◌<◌, length};
ghost use Rattle.fields.specs.Limits.{largest_file};
ghost use Rattle.fields.specs.Judged.{given};
ghost use Rattle.blocks.specs.Head.{head_at, extent_of, room_of, paddings_of};

use crate::padding::{aligned, zeros};
use fields::field::read_at;
use fields::refusal::{Fault, Refusal};

// Bytes of a block's leading numbers.
pub const HEAD_SIZE: usize = 12;

// Where the second and the third of them stand, from the block's start.
pub(crate) const DATA_SIZE_AT: usize = 4;

const META_SIZE_AT: usize = 8;

// A block's leading numbers: its type, data size and meta data size.
#[derive(Clone, Copy, Debug, PartialEq, Eq)]
pub struct Head {
    pub block_type: u32,
    pub data_size: u32,
    pub meta_size: u32,
}

// The 12 bytes at `at`.
pub(crate) fn head_at(s: &[u8], at: usize) -> Result<Head, Refusal>
    ensures { given result ≡ head_at s.now at }
{
    let block_type = read_at(s, at)?;
    let data_size = read_at(s, at + DATA_SIZE_AT)?;
    let meta_size = read_at(s, at + META_SIZE_AT)?;
    Ok(Head {
        block_type,
        data_size,
        meta_size,
    })
}

// Where the parts of a block end: its data, the padding after it, its meta data, the padding after that.
#[derive(Clone, Copy, Debug, PartialEq, Eq)]
pub struct Extent {
    pub data_end: usize,
    pub meta_at: usize,
    pub meta_end: usize,
    pub next: usize,
}

// The extent of the block at `at`.
pub(crate) fn extent_of(at: usize, head: Head) -> Extent
    requires { at ≤ largest_file }
    ensures { result ≡ extent_of at head }
{
    let data_end = at + HEAD_SIZE + head.data_size as usize;
    let meta_at = at + HEAD_SIZE + aligned(head.data_size as usize);
    let meta_end = meta_at + head.meta_size as usize;
    Extent {
        data_end,
        meta_at,
        meta_end,
        next: meta_at + aligned(head.meta_size as usize),
    }
}

// Refuses the first part of the block at `at` that passes the end of `len` bytes.
pub(crate) fn room(len: usize, at: usize, e: Extent) -> Result<(), Refusal>
    requires { at ≤ largest_file }
    ensures { given result ≡ room_of len at e }
{
    if len < e.data_end {
        return Err(Fault::Truncated.at(at + HEAD_SIZE));
    }
    if len < e.meta_at {
        return Err(Fault::Truncated.at(e.data_end));
    }
    if len < e.meta_end {
        return Err(Fault::Truncated.at(e.meta_at));
    }
    if len < e.next {
        return Err(Fault::Truncated.at(e.meta_end));
    }
    Ok(())
}

// Refuses the first padding byte of a block that is not zero.
pub(crate) fn paddings(s: &[u8], e: Extent) -> Result<(), Refusal>
    requires { (e.meta_at ≤ length s.now) × (e.next ≤ length s.now) }
    ensures { given result ≡ paddings_of s.now e }
{
    zeros(s, e.data_end, e.meta_at)?;
    zeros(s, e.meta_end, e.next)
}
