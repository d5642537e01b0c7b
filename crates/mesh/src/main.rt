// The program `mesh run`: reads a traffic list from standard input and prints its sheet.
#![tactic(auto)]

ghost use Rattle.std.specs.Prelude.{◌≤◌, length, IfOk};

use std::env::FillError;
use std::io::{self, Read, Write};
use std::rt::Env;

// Is the program called with the one word `run`?
fn is_run(rt: &impl Env) -> bool {
    let mut word = [0u8; 4];
    matches!(rt.arg(1, &mut word), Ok(3))
        && word.starts_with(b"run")
        && matches!(rt.arg(2, &mut word), Err(FillError::NotPresent))
}

// Reads until the buffer is full or the input ends. Returns how many bytes it put at the start.
// No method of std does so without a heap: `read_exact` fails where the input ends first.
fn read_full<R: Read>(input: &mut R, buf: &mut [u8]) -> io::Result<usize>
    ensures { IfOk result (λ n. n ≤ length buf.new) }
{
    let mut done = 0;
    while done < buf.len() {
        let n = input.read(&mut buf[done..])?;
        if n == 0 {
            break;
        }
        done += n;
    }
    Ok(done)
}

// Prints the sheet of the list on standard input. A list has at most 194 bytes, so that one more is
// enough to refuse whatever is longer. The bytes lent for the sheet are enough, so the call is served.
fn run(rt: &(impl Input + Print)) -> io::Result<()> {
    let mut list = [0u8; 195];
    let n = read_full(&mut rt.reader(), &mut list)?;
    let mut words: [u16; 3072] = [0; 3072];
    let mut sheet = [0u8; 1024];
    let length = report::mesh_report(&list[..n], &mut words, &mut sheet).unwrap() as usize;
    io::writer(rt).write_all(&sheet[..length])
}

// Prints a sheet, or how the program is used.
fn main(rt: HostRuntime) -> io::Result<()> {
    if is_run(&rt) {
        return run(&rt);
    }
    print!(rt;
        "usage: mesh run < LIST\nReads a traffic list and prints the hops and the moves of each packet.\n"
    )
}
