// What the program `ask` does: it reads lines and answers each. No contract can say what is read or
// written, so the loop that reads and writes is all that stands outside of one.
#![tactic(auto)]

mod answered;
mod kept;

use answered::answer_lines;
use kept::keep;
use std::io::{self, Read};

// The bytes that are read at once, and those that are written.
const ROOM: usize = 65536;

// Writes the answers to all whole lines of the input, in pieces as large as the page; how many bytes of
// input these are.
fn write_answers<P: Print>(
    rt: &P,
    input: &[u8],
    ended: bool,
    page: &mut [u8],
) -> io::Result<usize> {
    let mut taken = 0;
    loop {
        let progress = answer_lines(&input[taken..], ended, page);
        let written = progress.written;
        rt.write_all(&page[..written])?;
        if progress.taken == 0 {
            return Ok(taken);
        }
        taken += progress.taken;
    }
}

// Reads once, behind the bytes that are there already, and answers the lines that are whole now; how many
// bytes are kept for the next turn. None where there is no next: the input has ended, a line has no end in
// the buffer, or the output fails.
fn read_once<P: Print, R: Read>(
    rt: &P,
    reader: &mut R,
    input: &mut [u8],
    have: usize,
    page: &mut [u8],
) -> Option<usize> {
    if input.len() <= have {
        return None;
    }
    let new = reader.read(&mut input[have..]).unwrap_or(0);
    let ended = new == 0;
    let all = have + new;
    let taken = write_answers(rt, &input[..all], ended, page).ok()?;
    if ended {
        return None;
    }
    Some(keep(input, taken, all))
}

// Reads lines from standard input until it ends and answers each, in order, on standard output. A proved
// loop has to end, and nothing says that the input does: so the turns are counted, up to a number that no
// run reaches.
pub fn run<R: Input + Print>(rt: &R) {
    let mut reader = rt.reader();
    let mut input = [0u8; ROOM];
    let mut page = [0u8; ROOM];
    let mut have = 0;
    for _ in 0..u64::MAX {
        let Some(kept) = read_once(rt, &mut reader, &mut input, have, &mut page) else {
            return;
        };
        have = kept;
    }
}
