// A program's input: the file that an argument names, or standard input. What fails is told on standard error.
#![tactic(auto)]

ghost use Rattle.std.specs.Prelude.{length};
ghost use Rattle.input.specs.Input.{InputFits};

use std::env::{Env, FillError};
use std::fs::File;
use std::io;
use std::io::Read;
use std::rt::Runtime;

// The system's words for an error, without the number that stands after them.
fn words_of(error: &str) -> &str {
    match error.split_once(" (os error ") {
        Some((words, _)) => words,
        None => error,
    }
}

// Tells what failed, and why.
fn fail(rt: &impl Runtime, name: &str, error: io::Error) {
    let _ = match format!(in rt.alloc(); "{error}") {
        Ok(text) => eprintln!(rt; "{name}: {}", words_of(text.as_str())),
        Err(_) => eprintln!(rt; "{name}: {error}"),
    };
}

// Reads once. `name` is how a message calls the input.
fn read_some(rt: &impl Runtime, reader: &mut impl Read, buf: &mut [u8], name: &str) -> Option<usize>
    ensures { InputFits (length buf.new) result }
{
    match reader.read(buf) {
        Ok(got) => Some(got),
        Err(error) => {
            fail(rt, name, error);
            None
        }
    }
}

// Reads until the input ends or the buffer is full.
// Kept: a turn goes on by as many bytes as were read, so `for` over the places is no plainer.
fn read_to_end(
    rt: &impl Runtime,
    reader: &mut impl Read,
    buf: &mut [u8],
    name: &str,
) -> Option<usize>
    ensures { InputFits (length buf.new) result }
{
    let mut done: usize = 0;
    while done < buf.len() {
        let n = read_some(rt, &mut *reader, &mut buf[done..], name)?;
        if n == 0 {
            break;
        }
        done += n;
    }
    Some(done)
}

// Reads standard input to the start of the buffer, and answers how many bytes; none where reading failed, which is then told. Where the
// buffer is full, more may follow.
pub fn read_standard(rt: &impl Runtime, buf: &mut [u8]) -> Option<usize>
    ensures { InputFits (length buf.new) result }
{
    read_to_end(rt, &mut rt.reader(), buf, "standard input")
}

// Reads the file named by argument `i`, from 1, in the same way.
pub fn read_file(rt: &impl Runtime, i: usize, buf: &mut [u8]) -> Option<usize>
    ensures { InputFits (length buf.new) result }
{
    let mut path = [0u8; 4096];
    let length = match rt.arg(i, &mut path) {
        Ok(length) => length,
        Err(FillError::NotPresent) => {
            let _ = eprintln!(rt; "argument: Invalid argument");
            return None;
        }
        Err(FillError::TooLong) => {
            let _ = eprintln!(rt; "argument: File name too long");
            return None;
        }
    };
    let Ok(path) = str::from_utf8(&path[..length]) else {
        let _ = eprintln!(rt; "argument: not UTF-8");
        return None;
    };
    match File::open(rt, path) {
        Ok(mut file) => read_to_end(rt, &mut file, buf, path),
        Err(error) => {
            fail(rt, path, error);
            None
        }
    }
}

// How many arguments there are, with the program's name.
pub fn argument_count(rt: &impl Env) -> usize {
    for count in 0..usize::MAX {
        if let Err(FillError::NotPresent) = rt.arg(count, &mut []) {
            return count;
        }
    }
    usize::MAX
}
