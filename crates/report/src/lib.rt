// The report: 'one frame and LF, 209 characters'. The frame is made in binary first, then written two characters to a byte.
#![tactic(auto)]

mod binary;
mod characters;

ghost use Rattle.std.specs.Prelude.{◌≡◌, ◌<◌, ◌≤◌, ◌++◌, map, length, drop, IfSome};
ghost use Rattle.std.specs.Result.{ForErr};
ghost use Rattle.rules.specs.Blocks.{block};
ghost use Rattle.rules.specs.Report.{report_tag, report_body, report_length, no_judgement};
ghost use Rattle.book.specs.Book.{verdict_value, judgement_of};
ghost use Rattle.report.specs.Said.{frame_head, heading_of, report_with, said};

use book::{Judgement, Refusal, Verdict};

// 'Refusal 1, line 2, offset 2', in as many bytes.
#[derive(Clone, Copy)]
struct Heading {
    number: u8,
    line: u16,
    offset: u16,
}

// 'D1, length 0065, then refusal 1, line 2, offset 2.'
fn put_head(head: &mut [u8], heading: Heading)
    requires { length head.old ≡ 8 }
    ensures { head.new ≡ frame_head heading.number heading.line heading.offset }
{
    let line = heading.line.to_be_bytes();
    let offset = heading.offset.to_be_bytes();
    head.copy_from_slice(&[
        0xD1,
        0x00,
        0x65,
        heading.number,
        line[0],
        line[1],
        offset[0],
        offset[1],
    ]);
}

// The frame in binary: 'D1, length 0065, then refusal 1, line 2, offset 2, eight verdicts, eleven figures'.
fn put_frame(frame: &mut [u8], heading: Heading, judgement: Judgement)
    requires { length frame.old ≡ 104 }
    ensures { frame.new ≡ block report_tag (report_body heading.number heading.line heading.offset (map verdict_value judgement.verdicts) judgement.figures) }
{
    put_head(&mut frame[0..8], heading);
    binary::put_verdicts(&mut frame[8..16], judgement.verdicts);
    binary::put_figures(&mut frame[16..104], judgement.figures);
}

// 'On refusals 1 to 8 verdicts are 3 and figures 0', and likewise on 10.
fn no_judgement() -> Judgement
    ensures { result ≡ judgement_of no_judgement }
{
    Judgement {
        verdicts: [Verdict::Refused; 8],
        figures: [0; 11],
    }
}

// The heading of a refusal; where there is none, number, line and offset 0.
fn headed(refusal: Option<Refusal>) -> Heading
    requires { IfSome refusal (λ r. (r.place.line < 65536) × (r.place.offset < 65536)) }
    ensures { result ≡ heading_of refusal }
{
    match refusal {
        Some(refusal) => Heading {
            number: u8::from(refusal.fault),
            line: refusal.place.line as u16,
            offset: refusal.place.offset as u16,
        },
        None => Heading {
            number: 0,
            line: 0,
            offset: 0,
        },
    }
}

// Writes a report into the front of a buffer, of a refusal or of none, and of a judgement beside it: the frame, two characters to a byte, and LF. Bytes beyond keep their values.
pub fn write(report: &mut [u8], refusal: Option<Refusal>, judgement: Judgement)
    requires report_length_in_bounds { report_length ≤ length report.old }
    requires line_bound { IfSome refusal (λ r. (r.place.line < 65536) × (r.place.offset < 65536)) }
    ensures { report.new ≡ report_with refusal judgement ++ drop report_length report.old }
{
    let heading = headed(refusal);
    let mut frame = [0u8; 104];
    put_frame(&mut frame, heading, judgement);
    characters::put(report, &frame);
    report[208] = b'\n';
}

// The report of an answer: of a judgement with no refusal, or of a refusal with no judgement.
pub fn say(report: &mut [u8], answer: Result<Judgement, Refusal>)
    requires report_length_in_bounds { report_length ≤ length report.old }
    requires line_bound { ForErr answer (λ refusal. (refusal.place.line < 65536) × (refusal.place.offset < 65536)) }
    ensures { report.new ≡ said answer ++ drop report_length report.old }
{
    match answer {
        Ok(judgement) => write(report, None, judgement),
        Err(refusal) => write(report, Some(refusal), no_judgement()),
    }
}
