// Parts of a file, for every offset: a block's data, its meta data, a chain's name. Each function `.._bounds` answers where the part
// stands, or number and place; the part itself is empty where that is refused.
ghost use Rattle.std.specs.Prelude.{◌≡◌, ◌≤◌, length};
ghost use Rattle.fields.specs.Limits.{largest_file};
ghost use Rattle.fields.specs.Judged.{given};
ghost use Rattle.blocks.specs.Parts.{head_in, within, meta_within, chain_name_within};
ghost use Rattle.blocks.specs.Parts.{data_bounds, meta_bounds, chain_name_bounds, data_part, meta_part, chain_name};

use crate::chain::in_chain;
use crate::head::{HEAD_SIZE, Head, extent_of, head_at};
use crate::kind::MODIFIER_CHAIN;
use fields::bounds::{Bounds, part_of};
use fields::limits::LARGEST_FILE;
use fields::name::name_bounds;
use fields::refusal::{Fault, Refusal};

// The leading numbers of the block at `at` of a file.
fn head_in(file: &[u8], at: usize) -> Result<Head, Refusal>
    ensures { given result ≡ head_in file.now at }
{
    if LARGEST_FILE < file.len() {
        return Err(Fault::OverLimit.at(0));
    }
    head_at(file, at)
}

// So many bytes from `at` on.
fn within(file: &[u8], at: usize, size: usize) -> Result<Bounds, Refusal>
    requires { at ≤ length file.now }
    ensures { given result ≡ within file.now at size }
{
    if file.len() - at < size {
        return Err(Fault::Truncated.at(at));
    }
    Ok(Bounds { at, size })
}

// The meta data of the block at `at`, after its data and their padding.
fn meta_within(file: &[u8], at: usize, head: Head) -> Result<Bounds, Refusal>
    requires { at ≤ largest_file }
    ensures { given result ≡ meta_within file.now at head }
{
    let extent = extent_of(at, head);
    if file.len() < extent.data_end {
        return Err(Fault::Truncated.at(at + HEAD_SIZE));
    }
    if file.len() < extent.meta_at {
        return Err(Fault::Truncated.at(extent.data_end));
    }
    within(file, extent.meta_at, head.meta_size as usize)
}

// The name of the block at `at`, if that is a chain, within its data.
fn chain_name_within(file: &[u8], at: usize, head: Head) -> Result<Bounds, Refusal>
    requires { at ≤ largest_file }
    ensures { given result ≡ chain_name_within file.now at head }
{
    if head.block_type != MODIFIER_CHAIN {
        return Err(Fault::OutOfOrder.at(at));
    }
    let end = extent_of(at, head).data_end;
    if file.len() < end {
        return Err(Fault::Truncated.at(at + HEAD_SIZE));
    }
    in_chain(name_bounds(&file[..end], at + HEAD_SIZE))
}

// Where the data of the block at `at` stand.
pub fn data_bounds(file: &[u8], at: usize) -> Result<Bounds, Refusal>
    ensures { given result ≡ data_bounds file.now at }
{
    let head = head_in(file, at)?;
    within(file, at + HEAD_SIZE, head.data_size as usize)
}

// Where the meta data of the block at `at` stand.
// Kept: like the chain's name in its one `?` and one call; a function over what judges the head is no plainer.
pub fn meta_bounds(file: &[u8], at: usize) -> Result<Bounds, Refusal>
    ensures { given result ≡ meta_bounds file.now at }
{
    let head = head_in(file, at)?;
    meta_within(file, at, head)
}

// Where the name of the chain at `at` stands.
pub fn chain_name_bounds(file: &[u8], at: usize) -> Result<Bounds, Refusal>
    ensures { given result ≡ chain_name_bounds file.now at }
{
    let head = head_in(file, at)?;
    chain_name_within(file, at, head)
}

// The data of the block at `at`.
pub fn data_part(file: &[u8], at: usize) -> &[u8]
    ensures { result.now ≡ data_part file.now at }
{
    part_of(file, data_bounds(file, at))
}

// The meta data of the block at `at`.
pub fn meta_part(file: &[u8], at: usize) -> &[u8]
    ensures { result.now ≡ meta_part file.now at }
{
    part_of(file, meta_bounds(file, at))
}

// The name of the chain at `at`.
pub fn chain_name(file: &[u8], at: usize) -> &[u8]
    ensures { result.now ≡ chain_name file.now at }
{
    part_of(file, chain_name_bounds(file, at))
}
