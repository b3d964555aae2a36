// The fields of a modifier chain before its blocks (clause 9.4.3), read from the bytes up to the chain's end.
ghost use Rattle.std.specs.Prelude.{◌≡◌, ◌+◌, ◌≤◌, length};
ghost use Rattle.fields.specs.Limits.{longest_name};
ghost use Rattle.fields.specs.Judged.{given};
ghost use Rattle.blocks.specs.Chain.{count_at, fields_after_name, chain_at, in_chain};

use crate::padding::{aligned, zeros};
use fields::field::read_at;
use fields::name::name_size;
use fields::refusal::{Fault, Refusal};

// Blocks that stand one after the other: where the first starts, and how many they are.
#[derive(Clone, Copy, Debug, PartialEq, Eq)]
pub struct Run {
    pub at: usize,
    pub count: u32,
}

// What was judged inside a chain: bytes that end too early are the chain's fault.
pub(crate) fn in_chain<T>(judged: Result<T, Refusal>) -> Result<T, Refusal>
    ensures { given result ≡ in_chain (given judged) }
{
    judged.map_err(|e| match e.fault {
        Fault::Truncated => Fault::BadChain.at(e.place),
        _ => e,
    })
}

// A chain's padding from `from` up to `to`, and its modifier count.
fn count_at(s: &[u8], from: usize, to: usize) -> Result<Run, Refusal>
    requires { (from ≤ length s.now) × (from ≤ to) }
    ensures { given result ≡ count_at s.now from to }
{
    if s.len() < to {
        return Err(Fault::Truncated.at(from));
    }
    zeros(s, from, to)?;
    let count = read_at(s, to)?;
    Ok(Run { at: to + 4, count })
}

// The fields of a chain after its name of `size` bytes.
fn fields_after_name(s: &[u8], at: usize, size: usize) -> Result<Run, Refusal>
    requires { (at + (size + 2) ≤ length s.now) × (size ≤ longest_name) }
    ensures { given result ≡ fields_after_name s.now at size }
{
    let next = at + (size + 2);
    let kind: u32 = read_at(s, next)?;
    if 2 < kind {
        return Err(Fault::BadChain.at(next));
    }
    let attributes: u32 = read_at(s, next + 4)?;
    if attributes != 0 {
        return Err(Fault::BadChain.at(next + 4));
    }
    count_at(s, next + 8, at + aligned(size + 10))
}

// The fields of a chain whose data starts at `at` and ends with `s`: where its blocks start, and how many they are.
pub(crate) fn chain_at(s: &[u8], at: usize) -> Result<Run, Refusal>
    requires { at ≤ length s.now }
    ensures { given result ≡ chain_at s.now at }
{
    let size = name_size(s, at)?;
    fields_after_name(s, at, size)
}
