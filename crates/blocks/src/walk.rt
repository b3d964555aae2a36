// The walk over blocks that stand one after the other. It calls itself on a chain's contents.
ghost use Rattle.std.specs.Prelude.{◌≡◌, false, ◌-◌, ◌*◌, ◌≤◌, length};
ghost use Rattle.fields.specs.Limits.{largest_file};
ghost use Rattle.blocks.specs.Block.{levels};
ghost use Rattle.blocks.specs.Walk.{row_of, file_ends};
ghost use Rattle.fields.specs.Judged.{given};
ghost use Rattle.blocks.specs.Inside.{walk_stored, answer_of, filled_of, ToldFits};

use crate::block::{LEVELS, block_at};
use crate::chain::{Run, in_chain};
use crate::head::{Head, paddings};
use crate::kind::{is_chain, is_continuation};
use crate::tell::{Row, Told, tell};
use fields::refusal::{Fault, Refusal};

// The row of the block at `at`.
pub(crate) fn row_of(at: usize, head: Head, remaining: u32) -> Row
    requires { (at ≤ largest_file) × (remaining ≤ levels) }
    ensures { result ≡ row_of at head (levels - remaining) }
{
    Row {
        offset: at as u32,
        block_type: head.block_type,
        data_size: head.data_size,
        meta_size: head.meta_size,
        depth: LEVELS - remaining,
    }
}

// Whether the blocks at the top end with the bytes, at `at`.
fn file_ends(at: usize, len: usize, remaining: u32) -> bool
    ensures { result ≡ file_ends at len remaining }
{
    at == len && remaining == LEVELS
}

// The answer where all blocks are walked: the last one ends where the bytes end.
fn filled(at: usize, len: usize, told: Told) -> Result<Told, Refusal>
    ensures { given result ≡ filled_of at len told }
{
    if at == len {
        Ok(told)
    } else {
        Err(Fault::BadChain.at(at))
    }
}

// Walks the blocks of `run`, which end where `s` ends; at the top they are as many as there are. `remaining` chains may still be
// entered, and `before` has been told before.
// Kept: table, text and lines as parameters. A struct of both borrows needs a clause more for each at every call, and is no plainer.
pub(crate) fn walk(
    s: &[u8],
    run: Run,
    remaining: u32,
    table: &mut [u32],
    text: &mut [u8],
    before: Told,
    lines: bool,
) -> Result<Told, Refusal>
    requires { (run.at ≤ length s.now) × (length s.now ≤ largest_file) × (remaining ≤ levels) × (before.blocks ≤ run.at) × (before.bytes ≤ 9 * run.at) }
    ensures result_value { given result ≡ answer_of (walk_stored table.old text.old before lines s.now run remaining) }
    ensures table_after { table.new ≡ (walk_stored table.old text.old before lines s.now run remaining).table }
    ensures text_after { text.new ≡ (walk_stored table.old text.old before lines s.now run remaining).text }
    ensures told_fits { ToldFits (length s.now) (given result) }
{
    let mut at = run.at;
    let mut told = before;
    let mut continued = false;
    for _left in (0..run.count).rev() {
        if file_ends(at, s.len(), remaining) {
            return Ok(told);
        }
        let b = block_at(s, at, remaining, continued)?;
        let extent = b.extent;
        told = tell(table, text, told, row_of(at, b.head, remaining), lines);
        if is_chain(b.kind) {
            let inside = &s[..extent.data_end];
            let inner = walk(inside, b.contents, remaining - 1, table, text, told, lines);
            told = in_chain(inner)?;
        }
        paddings(s, extent)?;
        at = extent.next;
        continued = is_continuation(b.kind);
    }
    filled(at, s.len(), told)
}
