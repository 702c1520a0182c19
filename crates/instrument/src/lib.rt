// The instrument: one text in, one report line out for each of its conditions. Every text of every length is answered, and no caller is asked to have looked first.
#![tactic(auto)]

ghost use Rattle.std.specs.Prelude.{◌≡◌, ◌++◌, ◌≤◌, ◌<◌, length, drop};
ghost use Rattle.rules.specs.Layout.{most_characters};
ghost use Rattle.rules.specs.Report.{report_length};
ghost use Rattle.rules.specs.Answer.{number, bytes_sent, written, room, limited};
ghost use Rattle.std.specs.Result.{ForErr};
ghost use Rattle.report.specs.Said.{said};
ghost use Rattle.instrument.specs.Sent.{fault_in, number_sent, OfLine, Judged, OfBooklet, SentAll};

use book::{Fault, Judgement, Refusal, Row, Ship};
use frames::Condition;
use reading::Front;

// 'The report is .. 209 characters.'
const REPORT: usize = 209;

// 'The library takes up to 180,000 characters.'
const MOST_CHARACTERS: usize = 180_000;

// What a condition line says is weighed, loaded and judged, or refused: for itself, or with 7 or 8.
fn judged(ship: Ship, read: Result<Condition, Refusal>, rows: &[Row]) -> Result<Judgement, Refusal>
    requires { OfLine ship read rows.now }
    ensures { Judged ship read rows.now result }
{
    let condition = read?;
    let weight = curve::loading::weigh(condition.sums, rows)?;
    let loaded = curve::table::loaded(ship, condition.weather, rows, weight);
    Ok(criteria::judge(loaded))
}

// An answer is its report and, where it is a refusal, the fault.
fn send(answer: Result<Judgement, Refusal>, report: &mut [u8]) -> Option<Fault>
    requires report_length_in_bounds { report_length ≤ length report.old }
    requires line_bound { ForErr answer (λ refusal. (refusal.place.line < 65536) × (refusal.place.offset < 65536)) }
    ensures fault { result ≡ fault_in answer }
    ensures report_after { report.new ≡ said answer ++ drop report_length report.old }
{
    report::say(report, answer);
    match answer {
        Ok(_) => None,
        Err(refusal) => Some(refusal.fault),
    }
}

// 'One report line per condition, in order': the first fault among them, if there is one.
fn judge_conditions(
    text: &[u8],
    front: &Front,
    conditions: usize,
    report: &mut [u8],
) -> Option<Fault>
    requires { OfBooklet text.now front.now conditions report.old }
    ensures { SentAll text.now front.now report.old result report.new }
{
    let mut bytes = [0u8; reading::CONDITION_BYTES];
    let rows = front.rows.as_slice();
    let mut rest = &text[front.at..];
    let mut first = None;
    for k in 0..conditions {
        let line = 2 + rows.len() + k;
        let at = REPORT * k;
        let condition = reading::read_condition(rest, line, &mut bytes);
        let answer = judged(front.ship, condition.read, rows);
        let fault = send(answer, &mut report[at..at + REPORT]);
        first = first.or(fault);
        rest = &rest[condition.taken..];
    }
    first
}

// 0 where every condition is judged, else the number of the first fault.
fn number_sent(first: Option<Fault>) -> u8
    ensures { result ≡ number_sent first }
{
    match first {
        Some(fault) => u8::from(fault),
        None => 0,
    }
}

// What is sent back: the number of document 01 and request 4 (0 to 10), and how many bytes of the buffer are written.
#[derive(Clone, Copy)]
pub struct Reply {
    pub number: u8,
    pub length: usize,
}

// 9, with nothing written.
const NO_ROOM: Reply = Reply {
    number: Fault::NoRoom as u8,
    length: 0,
};

// `judge` with a limit of one's own, where that is less than the library's.
pub fn judge_within(text: &[u8], limit: usize, report: &mut [u8]) -> Reply
    ensures number_value { result.number ≡ number (limited limit) text.now report.old }
    ensures length_value { result.length ≡ bytes_sent (limited limit) text.now report.old }
    ensures report_after { report.new ≡ written (limited limit) text.now report.old }
    ensures within_buffer { result.length ≤ length report.old }
{
    if report.len() < REPORT {
        return NO_ROOM;
    }
    let read = reading::read_text(text, limit.min(MOST_CHARACTERS));
    let conditions = read.conditions;
    if report.len() < REPORT * conditions {
        return NO_ROOM;
    }
    match read.front {
        Ok(front) => Reply {
            number: number_sent(judge_conditions(text, &front, conditions, report)),
            length: REPORT * conditions,
        },
        Err(refusal) => Reply {
            number: number_sent(send(Err(refusal), report)),
            length: REPORT,
        },
    }
}

// The number of document 01 and request 4 (0 to 10). The report lines, 209 characters each, stand at the front of the buffer, or nothing is written where it has no room for them.
pub fn judge(text: &[u8], report: &mut [u8]) -> u8
    ensures value { result ≡ number most_characters text.now report.old }
    ensures report_after { report.new ≡ written most_characters text.now report.old }
{
    judge_within(text, MOST_CHARACTERS, report).number
}

// How many bytes of report a text asks room for: one line at least.
pub fn room(text: &[u8]) -> usize
    ensures { result ≡ room most_characters text.now }
{
    let read = reading::read_text(text, MOST_CHARACTERS);
    REPORT * read.conditions.max(1)
}
