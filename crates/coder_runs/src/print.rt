// Lines of fields with tabs between them.
use crate::read;
use coder::histogram::SYMBOLS;
use coder::interval::Coder;
use coder::write::Writer;
use fields::refusal::Fault;
use std::io;

pub(crate) fn print_text(rt: &impl Print, text: &[u8]) -> io::Result<()> {
    rt.write_all(text)
}

// A fault's number, or 0.
fn number_of<T: Copy>(outcome: Result<T, Fault>) -> u32 {
    match outcome {
        Ok(_) => 0,
        Err(fault) => u32::from(fault),
    }
}

fn print_state(rt: &impl Print, state: Coder) -> io::Result<()> {
    print!(rt;
        "\t{}\t{}\t{}\t{}",
        state.low, state.high, state.pending, state.settled
    )
}

// A writer's state, and 1 where a compressed value was written.
fn print_writer(rt: &impl Print, writer: Writer) -> io::Result<()> {
    print_state(rt, writer.coder)?;
    println!(rt; "\t{}", u32::from(writer.compressed))
}

pub(crate) fn print_write(
    rt: &impl Print,
    outcome: Result<(), Fault>,
    writer: Writer,
) -> io::Result<()> {
    print!(rt; "write\t{}", number_of(outcome))?;
    print_writer(rt, writer)
}

// The bytes used, 0 where the end is refused.
pub(crate) fn print_end(
    rt: &impl Print,
    outcome: Result<usize, Fault>,
    writer: Writer,
) -> io::Result<()> {
    print!(rt; "end\t{}\t{}", number_of(outcome), outcome.unwrap_or(0))?;
    print_writer(rt, writer)
}

// The total where it was lent.
pub(crate) fn print_read(
    rt: &impl Print,
    answer: read::Answer,
    state: Coder,
    counted: bool,
) -> io::Result<()> {
    print!(rt;
        "read\t{}\t{}",
        number_of(answer.last),
        answer.last.unwrap_or(0)
    )?;
    print_state(rt, state)?;
    print!(rt; "\t{}", answer.sum)?;
    if counted {
        print!(rt; "\t{}", answer.total)?;
    }
    print_text(rt, b"\n")
}

pub(crate) fn print_bytes(rt: &impl Print, bytes: &[u8]) -> io::Result<()> {
    print_text(rt, b"bytes\t")?;
    for &byte in bytes {
        print!(rt; "{byte:02x}")?;
    }
    print_text(rt, b"\n")
}

// The weights above 0, each after its symbol.
pub(crate) fn print_weights(rt: &impl Print, histogram: &[u32; SYMBOLS]) -> io::Result<()> {
    print_text(rt, b"weights")?;
    for (symbol, &weight) in histogram.iter().enumerate() {
        if 0 < weight {
            print!(rt; "\t{symbol}:{weight}")?;
        }
    }
    print_text(rt, b"\n")
}
