// For each file that its arguments name: the walk's answer, the header's fields, the listing, and the parts of its blocks.
#![tactic(auto)]

use blocks::file::walk_blocks;
use blocks::header::first_block;
use blocks::parts::{chain_name, data_part, meta_part};
use blocks::tell::ROW_WIDTH;
use fields::field::bytes_at;
use fields::limits::LARGEST_PROGRAM_FILE;
use fields::refusal::{Fault, Refusal};
use input::argument_count;
use std::env::Env;
use std::io;
use std::rt::Runtime;

// The answer of what is refused: its number and place, and no blocks.
fn print_refusal(rt: &impl Print, e: Refusal) -> io::Result<()> {
    println!(rt; "{}\t{}\t0", u32::from(e.fault), e.place)
}

// The header's fields, where the first block is good.
fn print_header(rt: &impl Print, file: &[u8]) -> io::Result<()> {
    let Ok(first) = first_block(file) else {
        return Ok(());
    };
    let header = first.fields;
    print!(rt; "header\t{}\t{}\t", header.minor_version, header.profile)?;
    print!(rt; "{}\t{}\t", header.declaration_size, header.file_size)?;
    println!(rt; "{}\t{}", header.encoding, header.units)
}

fn print_listing(rt: &impl Print, file: &[u8]) -> io::Result<()> {
    let mut text = [0u8; 262144];
    match listing::list_file(file, LARGEST_PROGRAM_FILE, &mut text) {
        Err(e) => print_refusal(rt, e),
        Ok(bytes) => rt.write_all(bytes_at(&text, 0, bytes)),
    }
}

fn print_part(rt: &impl Print, file: &[u8], at: usize) -> io::Result<()> {
    let data_size = data_part(file, at).len();
    let meta_size = meta_part(file, at).len();
    print!(rt; "part\t{at}\t{data_size}\t{meta_size}\t")?;
    rt.write_all(chain_name(file, at))?;
    rt.write_all(b"\n")
}

// The parts of the blocks whose rows stand in the table.
fn print_parts(rt: &impl Print, file: &[u8], table: &[u32], blocks: usize) -> io::Result<()> {
    for i in 0..blocks.min(table.len() / ROW_WIDTH) {
        print_part(rt, file, table[i * ROW_WIDTH] as usize)?;
    }
    Ok(())
}

// A file of at most 64 KiB has at most 5,459 blocks.
fn print_walk(rt: &impl Print, file: &[u8]) -> io::Result<()> {
    let mut table = [0u32; 27295];
    match walk_blocks(file, &mut table) {
        Err(e) => {
            print_refusal(rt, e)?;
            print_header(rt, file)?;
            print_listing(rt, file)
        }
        Ok(blocks) => {
            println!(rt; "0\t0\t{blocks}")?;
            print_header(rt, file)?;
            print_listing(rt, file)?;
            print_parts(rt, file, &table, blocks)
        }
    }
}

fn print_file(rt: &impl Print, file: &[u8]) -> io::Result<()> {
    if LARGEST_PROGRAM_FILE < file.len() {
        print_refusal(rt, Fault::OverLimit.at(0))?;
        print_listing(rt, file)
    } else {
        print_walk(rt, file)
    }
}

// Kept: each program opens and names its files so; a public function for all would owe a promise, and none can say what is printed.
fn print_name(rt: &(impl Env + Print), i: usize) -> io::Result<()> {
    let mut name = [0u8; 4096];
    let length = rt.arg(i, &mut name).unwrap_or(0);
    rt.write_all(b"file\t")?;
    rt.write_all(&name[..length])?;
    rt.write_all(b"\t")
}

fn run(rt: &impl Runtime, i: usize) -> io::Result<()> {
    let mut file = [0u8; 65537];
    let Some(n) = input::read_file(rt, i, &mut file) else {
        return Ok(());
    };
    print_name(rt, i)?;
    print_file(rt, &file[..n])
}

fn main(rt: HostRuntime) -> io::Result<()> {
    for i in 1..argument_count(&rt) {
        run(&rt, i)?;
    }
    Ok(())
}
