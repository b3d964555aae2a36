// Lists the blocks of the file that its argument names, or of standard input where there is none.
#![tactic(auto)]

use fields::field::bytes_at;
use fields::limits::LARGEST_PROGRAM_FILE;
use input::argument_count;
use std::io;

// Writes the listing of a file.
fn list(rt: &(impl Print + Eprint), file: &[u8]) -> io::Result<()> {
    let mut text = [0u8; 262144];
    match listing::list_file(file, LARGEST_PROGRAM_FILE, &mut text) {
        Err(_) => eprintln!(rt; "list_blocks: the listing is too long"),
        Ok(bytes) => rt.write_all(bytes_at(&text, 0, bytes)),
    }
}

fn main(rt: HostRuntime) -> io::Result<()> {
    let mut file = [0u8; 65537];
    let arguments = argument_count(&rt);
    if 2 < arguments {
        return eprintln!(rt; "usage: list_blocks [FILE]");
    }
    let input = if arguments == 2 {
        input::read_file(&rt, 1, &mut file)
    } else {
        input::read_standard(&rt, &mut file)
    };
    let Some(n) = input else {
        return Ok(());
    };
    list(&rt, bytes_at(&file, 0, n))
}
