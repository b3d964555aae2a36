// Calls of the writer.
use crate::record::{Call, Operation};
use coder::histogram::SYMBOLS;
use coder::write::{Width, Writer};
use fields::refusal::Fault;

// Writes the low bytes of a value: one, two or four.
fn write_plain(writer: Writer, buf: &mut [u8], bytes: u32, value: u32) -> Result<Writer, Fault> {
    match bytes {
        1 => writer.write_plain(buf, Width::U8, value % 0x100),
        2 => writer.write_plain(buf, Width::U16, value % 0x10000),
        _ => writer.write_plain(buf, Width::U32, value),
    }
}

fn write_once(
    call: Call,
    writer: Writer,
    buf: &mut [u8],
    histogram: &mut [u32; SYMBOLS],
    value: u32,
) -> Result<Writer, Fault> {
    match call.operation {
        Operation::WriteStatic => writer.write_static(buf, call.a, value),
        Operation::WriteDynamic => writer.write_dynamic(buf, histogram, value),
        _ => write_plain(writer, buf, call.a, value),
    }
}

// The value modulo `below`, where that is not 0.
fn reduced(value: u32, below: u32) -> u32 {
    if below == 0 { value } else { value % below }
}

// Writes a value and those after it, until one is refused; the writer stays as the last one that was written left it.
pub(crate) fn write_all(
    call: Call,
    writer: &mut Writer,
    buf: &mut [u8],
    histogram: &mut [u32; SYMBOLS],
) -> Result<(), Fault> {
    let mut value = call.b;
    for _ in 0..u64::from(call.d) + 1 {
        let next = reduced(value, call.e);
        *writer = write_once(call, *writer, &mut *buf, &mut *histogram, next)?;
        value = value.wrapping_add(call.c);
    }
    Ok(())
}
