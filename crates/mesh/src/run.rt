// Runs of U32 fields that are judged by rules, and the name before them.
ghost use Rattle.std.specs.Prelude.{◌≡◌};
ghost use Rattle.fields.specs.Judged.{given};
ghost use Rattle.mesh.specs.Run.{ruled_at};
ghost use Rattle.mesh.specs.Inside.{ended_given, name_end, rule_at, run_into};

use fields::field::field_at;
use fields::limits::LARGEST_U32 as ANY;
use fields::name::name_size;
use fields::refusal::{Fault, Refusal};

// What a field may hold: at most `limit` (else 9), and from `least` to `most` (else 11).
#[derive(Clone, Copy, Debug, PartialEq, Eq)]
pub struct Rule {
    pub limit: u32,
    pub least: u32,
    pub most: u32,
}

// The rule of a field that is not judged.
pub(crate) const UNJUDGED: Rule = Rule {
    limit: ANY,
    least: 0,
    most: ANY,
};

// A value, and where it ends.
#[derive(Clone, Copy)]
pub struct Ended<T> {
    pub value: T,
    pub next: usize,
}

// The end of the name at the start of `s`.
pub(crate) fn name_end(s: &[u8]) -> Result<usize, Refusal>
    ensures { given result ≡ name_end s.now }
{
    let size = name_size(s, 0)?;
    Ok(size + 2)
}

// The rule of field i; past the last rule fields are not judged.
fn rule_at(rules: &[Rule], i: usize) -> Rule
    ensures { result ≡ rule_at rules.now i }
{
    rules.get(i).copied().unwrap_or(UNJUDGED)
}

// The field at `at`, judged by a rule.
fn ruled_at(s: &[u8], at: usize, rule: Rule) -> Result<u32, Refusal>
    ensures { given result ≡ ruled_at rule s.now at }
{
    let Some(value) = field_at::<u32>(s, at) else {
        return Err(Fault::Truncated.at(at));
    };
    if rule.limit < value {
        return Err(Fault::OverLimit.at(at));
    }
    if value < rule.least || rule.most < value {
        return Err(Fault::OutOfOrder.at(at));
    }
    Ok(value)
}

// Fills `values` with the fields from `from` on, up to the first that is refused; hands out where they end. Fields past the last rule
// are not judged.
pub(crate) fn read_run(
    s: &[u8],
    from: usize,
    rules: &[Rule],
    values: &mut [u32],
) -> Result<usize, Refusal>
    ensures { ended_given result values.new ≡ run_into values.old rules.now s.now from }
{
    let mut at = from;
    for (i, value) in values.iter_mut().enumerate() {
        *value = ruled_at(s, at, rule_at(rules, i))?;
        at += 4;
    }
    Ok(at)
}
