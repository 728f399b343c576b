// The program: a model's text comes in on standard input, its gates or one refusal go out on standard output. Which bytes go out for which bytes
// is the library's to say (`stitch::answer`); here they are only read and written.
#![tactic(auto)]

mod help;

ghost use Rattle.std.specs.Prelude.{◌≤◌, ◌<◌, length, IfOk};
ghost use Rattle.stitch.specs.Printed as Printed;
ghost use Rattle.ramstitcher.specs.Longest as Longest;

use std::env::{Env, FillError};
use std::io;
use std::io::{Cursor, Print, Read, Write};
use text::read::LONGEST;
use text::write::ROOM;

// One byte more than any acceptable text has: whoever has read so many knows that the text is refused.
const ENOUGH: usize = LONGEST + 1;

// More bytes than an error of the system is told in: its text has 256 at most, and its number follows.
const MESSAGE: usize = 320;

// One read, and how many bytes it gave.
fn read_some(rt: &HostRuntime, rest: &mut [u8]) -> io::Result<usize>
    ensures { IfOk result (λ n. n ≤ length rest.new) }
{
    rt.stdin().read(rest)
}

// Reads until the buffer is full, the input ends or a read fails. (A text that was cut short by a failure is none that the user gave.)
// A `while`: what is counted are bytes, as many as a read gives.
fn read_all(rt: &HostRuntime, buffer: &mut [u8]) -> io::Result<usize>
    ensures { IfOk result (λ n. n ≤ length buffer.new) }
{
    let mut done = 0;
    while done < buffer.len() {
        let got = read_some(rt, &mut buffer[done..])?;
        if got == 0 {
            return Ok(done);
        }
        done += got;
    }
    Ok(done)
}

// An error's bytes as text. What the system says is text; where it were not, that is said.
fn as_text(bytes: &[u8]) -> &str {
    match str::from_utf8(bytes) {
        Ok(text) => text,
        Err(_) => "not told as text",
    }
}

// What the system says of a failure, without its number.
fn without_number(text: &str) -> &str {
    match text.split_once(" (os error ") {
        Some((said, _)) => said,
        None => text,
    }
}

// A failure is told on standard error: the program ends with status 0 even then.
fn tell(rt: &HostRuntime, stream: &str, error: io::Error) -> io::Result<()> {
    let mut text = Cursor::new([0u8; MESSAGE]);
    write!(text, "{error}")?;
    let n = (text.position() as usize).min(MESSAGE);
    let bytes = text.into_inner();
    let said = without_number(as_text(&bytes[..n]));
    eprintln!(rt; "ramstitcher: {stream}: {said}")
}

fn tell_write(rt: &HostRuntime, written: io::Result<()>) -> io::Result<()> {
    match written {
        Ok(()) => Ok(()),
        Err(error) => tell(rt, "standard output", error),
    }
}

// From standard input to standard output. The buffer takes more than any acceptable text, so that no text is cut to one that is acceptable
// (proofs/Enough.antt); what could not be read is not answered.
fn stitch_input(rt: &HostRuntime, buffer: &mut [u8], out: &mut [u8]) -> io::Result<()>
    requires { (Longest.LONGEST < length buffer.old) × (Printed.ROOM ≤ length out.old) }
{
    match read_all(rt, buffer) {
        Ok(n) => {
            let end = stitch::answer(&buffer[..n], out);
            tell_write(rt, rt.write_all(&out[..end]))
        }
        Err(error) => tell(rt, "standard input", error),
    }
}

fn run(rt: &HostRuntime) -> io::Result<()> {
    let mut buffer = [0u8; ENOUGH];
    let mut out = [0u8; ROOM];
    stitch_input(rt, &mut buffer, &mut out)
}

// Whether there is an argument beside the program's own name.
fn has_argument(rt: &HostRuntime) -> bool {
    let mut word = [0u8; 8];
    match rt.arg(1, &mut word) {
        Err(FillError::NotPresent) => false,
        _ => true,
    }
}

// The first argument is `--help`. One that does not fit the array is another.
fn asks_for_help(rt: &HostRuntime) -> bool {
    let mut word = [0u8; 8];
    match rt.arg(1, &mut word) {
        Ok(n) => &word[..n] == b"--help".as_slice(),
        Err(_) => false,
    }
}

fn main(rt: HostRuntime) -> io::Result<()> {
    if !has_argument(&rt) {
        run(&rt)
    } else if asks_for_help(&rt) {
        tell_write(&rt, help::help(&rt))
    } else {
        eprintln!(rt; "ramstitcher: reads standard input and takes no argument but --help")
    }
}
