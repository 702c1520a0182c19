// For each text of the stream on standard input the number that is sent back, in a line of its own, and the report lines, in order.
#![tactic(auto)]

use std::io;
use std::io::{Read, Write};
use stream::Broken;

// The number, 0 to 10, in decimal and in a line of its own, which is written at once.
fn print_number<W: Write>(stdout: &mut W, number: u8) -> io::Result<()> {
    let line = [48 + number / 10, 48 + number % 10, b'\n'];
    let first = if number < 10 { 1 } else { 0 };
    stdout.write_all(&line[first..])
}

// One text within its limit, in as much of the buffer as its room: the number and the report lines.
fn print_reports<W: Write>(
    stdout: &mut W,
    text: &[u8],
    limit: usize,
    report: &mut [u8],
) -> io::Result<()> {
    let reply = instrument::judge_within(text, limit, report);
    print_number(stdout, reply.number)?;
    stdout.write_all(&report[..reply.length])
}

// A proved loop has to end, and nothing says that a stream does: it goes on to a number of texts that no run uses up.
fn all_reports<R: Read, W: Write>(
    stdin: &mut R,
    stdout: &mut W,
    buf: &mut [u8],
    report: &mut [u8],
) -> io::Result<()> {
    for _ in 0..u64::MAX {
        match stream::next_text(stdin, buf) {
            Ok(Some(text)) => {
                let room = text.room.min(report.len());
                print_reports(stdout, &buf[..text.len], text.limit, &mut report[..room])?;
            }
            Ok(None) => break,
            Err(Broken) => return stdout.write_all(b"the stream is broken\n"),
        }
    }
    Ok(())
}

fn main(rt: HostRuntime) {
    let mut buf = [0u8; 180001];
    // 'Up to 24 condition lines', 209 bytes for each.
    let mut report = [0u8; 5016];
    // Where standard output takes no more, nothing is left to do.
    let _ = all_reports(&mut rt.stdin(), &mut rt.stdout(), &mut buf, &mut report);
}
