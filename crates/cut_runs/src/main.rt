// Walks the file that its argument names, cut at every length, with the file size field set to that length: a line for each cut with
// its length, the answer's number and place, and the number of blocks.
#![tactic(auto)]

use blocks::file::walk_blocks;
use std::io;

// Sets the file size field, where the bytes hold it.
fn set_file_size(file: &mut [u8]) {
    if 32 <= file.len() {
        let size = file.len().to_le_bytes();
        file[24..26].copy_from_slice(&size[..2]);
    }
}

fn print_walk(rt: &impl Print, file: &mut [u8]) -> io::Result<()> {
    let mut table = [0u32; 500];
    let size = file.len();
    set_file_size(file);
    match walk_blocks(file, &mut table) {
        Ok(blocks) => println!(rt; "{size}\t0\t0\t{blocks}"),
        Err(e) => println!(rt; "{size}\t{}\t{}\t0", u32::from(e.fault), e.place),
    }
}

fn print_cuts(rt: &impl Print, file: &mut [u8]) -> io::Result<()> {
    for n in 0..=file.len() {
        print_walk(rt, &mut file[..n])?;
    }
    Ok(())
}

fn main(rt: HostRuntime) -> io::Result<()> {
    let mut file = [0u8; 4096];
    let Some(size) = input::read_file(&rt, 1, &mut file) else {
        return Ok(());
    };
    if size < 4096 {
        print_cuts(&rt, &mut file[..size])?;
    }
    Ok(())
}
