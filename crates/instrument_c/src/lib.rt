// The instrument for C and Rust to call: the archive's two functions, thin over the library's `judge` and `room`, with their clauses.
#![tactic(auto)]

ghost use Rattle.std.specs.Prelude.{◌≡◌};
ghost use Rattle.rules.specs.Layout.{most_characters};
ghost use Rattle.rules.specs.Answer.{number, written, room};

// `judge`: the number of document 01 and request 4, and the report lines at the front of the buffer.
#[unsafe(no_mangle)]
pub extern "C" fn rostblume_judge(text: &[u8], report: &mut [u8]) -> u8
    ensures value { result ≡ number most_characters text.now report.old }
    ensures report_after { report.new ≡ written most_characters text.now report.old }
{
    instrument::judge(text, report)
}

// `room`: how many bytes of report a text asks room for.
#[unsafe(no_mangle)]
pub extern "C" fn rostblume_room(text: &[u8]) -> usize
    ensures { result ≡ room most_characters text.now }
{
    instrument::room(text)
}
