// The program: reads standard input, at most 60,001 characters of it, and prints the report lines, one for each condition.
#![tactic(auto)]

ghost use Rattle.std.specs.Prelude.{◌≤◌, length, IfOk};

use std::io;
use std::io::{Eprint, Read, Write};

// 'The program up to 60,000, answering 1 beyond.'
const MOST_CHARACTERS: usize = 60_000;

// Standard input up to its end, or as much of it as the buffer holds: that many characters stand at the front of the buffer.
fn read_input<R: Read>(stdin: &mut R, buf: &mut [u8]) -> io::Result<usize>
    ensures { IfOk result (λ n. n ≤ length buf.new) }
{
    let mut n = 0;
    while n < buf.len() {
        let more = stdin.read(&mut buf[n..])?;
        if more == 0 {
            break;
        }
        n += more;
    }
    Ok(n)
}

// A line on standard error: what failed, and how. Where that fails too, nothing is left to do.
fn fail<E: Eprint>(stderr: &E, what: &str, error: io::Error) {
    let _ = eprintln!(stderr; "rostblume: {what}: {error}");
}

// What is printed is what was written: one report line for a text that is refused as a whole, else one for each condition, up to 24.
fn print_reports<W: Write>(stdout: &mut W, text: &[u8]) -> io::Result<()> {
    let mut report = [0u8; 5016];
    let reply = instrument::judge_within(text, MOST_CHARACTERS, &mut report);
    stdout.write_all(&report[..reply.length])
}

fn judge_input<R: Read, W: Write, E: Eprint>(
    stdin: &mut R,
    stdout: &mut W,
    stderr: &E,
    buf: &mut [u8],
) {
    match read_input(stdin, buf) {
        Err(e) => fail(stderr, "standard input", e),
        Ok(n) => {
            if let Err(e) = print_reports(stdout, &buf[..n]) {
                fail(stderr, "standard output", e);
            }
        }
    }
}

fn main(rt: HostRuntime) {
    let mut text = [0u8; 60001];
    judge_input(&mut rt.stdin(), &mut rt.stdout(), &rt.stderr(), &mut text);
}
