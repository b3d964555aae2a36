// Runs each script of coder calls that its arguments name, and prints what the calls answer.
#![tactic(auto)]

mod machine;
mod print;
mod read;
mod record;
mod write;

use coder::interval::Coder;
use coder::write::Writer;
use fields::field::bytes_at;
use input::argument_count;
use machine::{Machine, ROOM};
use print::{print_bytes, print_end, print_read, print_text, print_weights, print_write};
use read::read_all;
use record::{Call, Operation, RECORD_SIZE, call_of};
use std::env::Env;
use std::io;
use std::rt::Runtime;
use write::write_all;

// The state that a record gives; the next bits of the two counts stand in e.
fn state_of(call: Call) -> Coder {
    Coder {
        low: call.a,
        high: call.b,
        pending: u64::from(call.c) + u64::from(call.e / 2 % 2) * 0x100000000,
        settled: u64::from(call.d) + u64::from(call.e / 4 % 2) * 0x100000000,
    }
}

fn writer_of(call: Call) -> Writer {
    Writer {
        coder: state_of(call),
        compressed: call.e % 2 == 1,
    }
}

// The part of the buffer that is lent; the empty part where the buffer is shorter.
fn lent(buffer: &mut [u8], length: usize) -> &mut [u8] {
    if buffer.len() < length {
        return &mut buffer[..0];
    }
    &mut buffer[0..length]
}

fn run_write(rt: &impl Print, call: Call, machine: &mut Machine) -> io::Result<()> {
    let outcome = write_all(
        call,
        &mut machine.writer,
        lent(&mut machine.buffer, machine.length),
        &mut machine.histograms[call.histogram()],
    );
    print_write(rt, outcome, machine.writer)
}

fn run_end(rt: &impl Print, machine: &mut Machine) -> io::Result<()> {
    let buffer = lent(&mut machine.buffer, machine.length);
    match machine.writer.finish(buffer) {
        Ok(ended) => {
            machine.writer = ended.writer;
            print_end(rt, Ok(ended.used), machine.writer)
        }
        Err(fault) => print_end(rt, Err(fault), machine.writer),
    }
}

fn run_read(rt: &impl Print, call: Call, machine: &mut Machine) -> io::Result<()> {
    let answer = read_all(
        call,
        &mut machine.reader,
        bytes_at(&machine.buffer, 0, machine.length),
        &mut machine.histograms[call.histogram()],
    );
    let counted = call.operation == Operation::TakeDynamic;
    print_read(rt, answer, machine.reader, counted)
}

// Sets what a call names; it prints nothing.
fn run_set(call: Call, machine: &mut Machine) {
    let a = call.a as usize;
    match call.operation {
        Operation::Start => *machine = Machine::fresh(a, (call.b % 256) as u8),
        Operation::SetWriter => machine.writer = writer_of(call),
        Operation::SetReader => machine.reader = state_of(call),
        Operation::SetWeight => machine.set_weight(a, call.b as usize, call.c),
        Operation::SetByte => machine.set_byte(a, (call.b % 256) as u8),
        _ => machine.length = a,
    }
}

fn run_call(rt: &impl Print, call: Call, machine: &mut Machine) -> io::Result<()> {
    match call.operation {
        Operation::WriteStatic | Operation::WriteDynamic | Operation::WritePlain => {
            run_write(rt, call, machine)
        }
        Operation::End => run_end(rt, machine),
        Operation::ReadStatic
        | Operation::ReadDynamic
        | Operation::ReadPlain
        | Operation::TakeStatic
        | Operation::TakeDynamic
        | Operation::TakePlain => run_read(rt, call, machine),
        Operation::ShowBytes => { print_bytes(rt, bytes_at(&machine.buffer, 0, call.a as usize)) }
        Operation::ShowWeights => print_weights(rt, &machine.histograms[call.histogram()]),
        _ => {
            run_set(call, machine);
            Ok(())
        }
    }
}

// A record whose operation is not known or whose operands are not in range is passed over.
fn run_script(rt: &impl Print, script: &[u8]) -> io::Result<()> {
    let mut machine = Machine::fresh(ROOM, 0);
    for record in script.chunks_exact(RECORD_SIZE) {
        if let Some(call) = call_of(record)
            && call.is_in_range()
        {
            run_call(rt, call, &mut machine)?;
        }
    }
    Ok(())
}

// Kept: each program opens and names its files so; a public function for all would owe a promise, and none can say what is printed.
fn print_name(rt: &(impl Env + Print), i: usize) -> io::Result<()> {
    let mut name = [0u8; 4096];
    let length = rt.arg(i, &mut name).unwrap_or(0);
    print_text(rt, b"file\t")?;
    print_text(rt, &name[..length])?;
    print_text(rt, b"\n")
}

// A script has at most 64 KiB.
fn run(rt: &impl Runtime, i: usize) -> io::Result<()> {
    let mut script = [0u8; 65536];
    let Some(n) = input::read_file(rt, i, &mut script) else {
        return Ok(());
    };
    print_name(rt, i)?;
    run_script(rt, bytes_at(&script, 0, n))
}

fn main(rt: HostRuntime) -> io::Result<()> {
    for i in 1..argument_count(&rt) {
        run(&rt, i)?;
    }
    Ok(())
}
