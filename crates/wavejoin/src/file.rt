// A file that an argument names, read whole.
use std::fs::File;
use std::rt::{Env, Files};
use std::str::from_utf8;
use text::{argument, read_full};

// Reads the file that argument i names to the start of the buffer, and answers how many bytes stand there: the file ends there, or the buffer does.
// None where it cannot be opened, or a read fails, as that of a folder, which is no end of a file. A name that is longer than a path may be comes as
// an empty one, which names no file; a path is text in UTF-8, so any other name names none either.
pub fn read_argument<R: Env + Files>(rt: &R, i: usize, buf: &mut [u8]) -> Option<usize> {
    let mut path = [0u8; 4096];
    let n = argument(rt, i, &mut path);
    let name = from_utf8(&path[..n]).ok()?;
    let mut file = File::open(rt, name).ok()?;
    read_full(&mut file, buf).ok()
}
