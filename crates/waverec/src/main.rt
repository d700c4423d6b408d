// Makes the calls of a sheet on standard input, answers each on a line, and then shows the image. With the argument `image` it writes
// the image's bytes alone.
//
// What a line says is read by the crate line; the calls are made by the crate sheet.
#![tactic(auto)]

mod lines;

use line::words::spells;
use lines::take_lines;
use sheet::Memory;
use sheet::answer::print_image;
use sheet::run::Run;
use std::io;
use std::io::{Read, Write};
use std::rt::Env;
use text::{argument, before, has_argument, print, read_full};

fn zeros() -> [u8; 1048576] {
    [0u8; 1048576]
}

// The image's bytes, alone or as digits on a line.
fn show<W: Write>(to: &mut W, image: &[u8], alone: bool) -> io::Result<()> {
    if alone {
        return print(to, image);
    }
    print_image(to, image)
}

// Makes the calls in memory of its own, and shows the image that they leave.
fn take_sheet<W: Write>(to: &mut W, sheet: &[u8], quiet: bool) -> io::Result<()> {
    let mut run = Run::fresh(65535, 1048576, 1048576);
    let mut memory = Memory {
        records: &mut [0u64; 256],
        times: &mut [0u64; 65535],
        work: &mut zeros(),
        image: &mut zeros(),
    };
    let total = take_lines(to, &mut run, sheet, &mut memory, quiet)?;
    if 0 < total {
        show(to, before(memory.image, total), quiet)?;
    }
    Ok(())
}

// Takes the sheet on standard input: at most 65,536 bytes, of which one more is asked for.
fn replay<R: Read, W: Write>(from: &mut R, to: &mut W, quiet: bool) -> io::Result<()> {
    let mut sheet = [0u8; 65537];
    let n = read_full(from, &mut sheet)?;
    if n <= 65536 {
        return take_sheet(to, before(&sheet, n), quiet);
    }
    if !quiet {
        print(to, b"sheet too long\n")?;
    }
    Ok(())
}

// The one argument is `image`.
fn image_alone(rt: &impl Env) -> bool {
    let mut word = [0u8; 6];
    let n = argument(rt, 1, &mut word);
    spells(before(&word, n), b"image")
}

fn replay_as_asked<W: Write>(rt: &(impl Env + Input), to: &mut W) -> io::Result<()> {
    if !has_argument(rt, 1) {
        return replay(&mut rt.reader(), to, false);
    }
    if !has_argument(rt, 2) {
        if image_alone(rt) {
            return replay(&mut rt.reader(), to, true);
        }
    }
    print(to, b"usage: waverec [image]\n")
}

fn main(rt: HostRuntime) -> io::Result<()> {
    replay_as_asked(&rt, &mut rt.stdout())
}
