// The coder's states as a caller holds them: low, high, pending, settled, and for a writer a fifth word, 1 where a compressed value was
// written and else 0.
ghost use Rattle.std.specs.Prelude.{◌≡◌, ◌≤◌, length};
ghost use Rattle.std.proofs.lemmas.List.Edits.{sets};
ghost use Rattle.oysterfold.specs.CoderState.{coder_in, coder_length, coder_words, limit_in, low_in, writer_in, writer_length, writer_words};

use crate::result::put_words;
use coder::interval::Coder;
use coder::write::Writer;

// The words of a reader's state.
pub(crate) const CODER_WORDS: usize = 4;

// The words of a writer's state.
pub(crate) const WRITER_WORDS: usize = 5;

// A limit that no well-formed state has.
const NO_LIMIT: u32 = 0xFFFFFFFF;

fn limit_in(word: u64) -> u32
    ensures { result ≡ limit_in word }
{
    u32::try_from(word).unwrap_or(NO_LIMIT)
}

// The low limit of a writer, whose flag is judged with it.
fn low_in(low: u32, flag: u64) -> u32
    ensures { result ≡ low_in low flag }
{
    if flag > 1 { NO_LIMIT } else { low }
}

pub(crate) fn coder_in(state: &[u64]) -> Coder
    requires { coder_length ≤ length state.now }
    ensures { result ≡ coder_in state.now }
{
    Coder {
        low: limit_in(state[0]),
        high: limit_in(state[1]),
        pending: state[2],
        settled: state[3],
    }
}

pub(crate) fn writer_in(state: &[u64]) -> Writer
    requires { writer_length ≤ length state.now }
    ensures { result ≡ writer_in state.now }
{
    let s = coder_in(state);
    let flag = state[CODER_WORDS];
    Writer {
        coder: Coder {
            low: low_in(s.low, flag),
            ..s
        },
        compressed: flag == 1,
    }
}

pub(crate) fn put_coder(state: &mut [u64], s: Coder)
    requires { coder_length ≤ length state.old }
    ensures { state.new ≡ sets state.old 0 (coder_words s) }
{
    put_words(
        state,
        &[u64::from(s.low), u64::from(s.high), s.pending, s.settled],
    );
}

pub(crate) fn put_writer(state: &mut [u64], w: Writer)
    requires { writer_length ≤ length state.old }
    ensures { state.new ≡ sets state.old 0 (writer_words w) }
{
    put_coder(&mut *state, w.coder);
    state[CODER_WORDS] = u64::from(w.compressed);
}
