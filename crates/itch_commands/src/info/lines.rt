//! The texts about a day, in each form.
ghost use Rattle.std.specs.Prelude.{◌≡◌, ◌+◌, ◌≤◌, ◌<◌, ◌++◌, length};
ghost use Rattle.itch_commands.specs.Infos.{comma, event_text, market_text, middle_text, size_text, tail_text, time_text, times_text, truth_text, type_text};

use crate::form::ReportForm;
use crate::info::events::Event;
use crate::info::summary::Summary;
use crate::line::Line;

/// Returns the number of messages, and of bytes in their blocks.
pub fn size_text(form: ReportForm, summary: &Summary) -> Line
    ensures { result ≡ size_text form summary.now }
{
    let mut line = Line::new();
    match form {
        ReportForm::Text => {
            line.text(b"messages ");
            line.number(summary.count);
            line.text(b"\nbytes ");
            line.number(summary.bytes);
            line.text(b"\n");
        }
        ReportForm::Json => {
            line.text(b"{\"messages\":");
            line.number(summary.count);
            line.text(b",\"bytes\":");
            line.number(summary.bytes);
        }
    }
    line
}

/// Returns the earliest and the latest time.
pub fn times_text(form: ReportForm, summary: &Summary) -> Line
    ensures { result ≡ times_text form summary.now }
{
    let mut line = Line::new();
    match form {
        ReportForm::Text => {
            line.text(b"first ");
            push_time(&mut line, form, summary.first);
            line.text(b"\nlast ");
            push_time(&mut line, form, summary.last);
            line.text(b"\n");
        }
        ReportForm::Json => {
            line.text(b",\"first\":");
            push_time(&mut line, form, summary.first);
            line.text(b",\"last\":");
            push_time(&mut line, form, summary.last);
        }
    }
    line
}

/// Returns the stocks, the live orders, and whether the day has ended.
pub fn market_text(form: ReportForm, summary: &Summary) -> Line
    ensures { result ≡ market_text form summary.now }
{
    let mut line = Line::new();
    match form {
        ReportForm::Text => {
            line.text(b"stocks ");
            line.number(summary.stocks);
            line.text(b"\nlive ");
            line.number(summary.live);
            line.text(b"\npeak ");
            line.number(summary.peak);
            line.text(b"\nended ");
            line.text(truth_text(form, summary.is_ended));
            line.text(b"\n");
        }
        ReportForm::Json => {
            line.text(b",\"stocks\":");
            line.number(summary.stocks);
            line.text(b",\"live\":");
            line.number(summary.live);
            line.text(b",\"peak\":");
            line.number(summary.peak);
            line.text(b",\"ended\":");
            line.text(truth_text(form, summary.is_ended));
            line.text(b",\"types\":{");
        }
    }
    line
}

/// Returns a type, and its number of messages.
pub fn type_text(form: ReportForm, is_first: bool, kind: u8, count: u64) -> Line
    ensures { result ≡ type_text form is_first kind count }
{
    let mut line = Line::new();
    match form {
        ReportForm::Text => {
            line.text(b"type '");
            line.character(kind);
            line.text(b"' ");
            line.number(count);
            line.text(b"\n");
        }
        ReportForm::Json => {
            line.text(comma(form, is_first));
            line.text(b"\"");
            line.escaped(kind);
            line.text(b"\":");
            line.number(count);
        }
    }
    line
}

/// Returns the text between the types and the events.
pub fn middle_text(form: ReportForm) -> &'static [u8]
    ensures text { result.now ≡ middle_text form }
    ensures short { length result.now ≤ 256 }
{
    match form {
        ReportForm::Text => b"",
        ReportForm::Json => b"},\"events\":[",
    }
}

/// Returns a system event: the number of its message, its time and its code.
pub fn event_text(form: ReportForm, is_first: bool, event: &Event) -> Line
    ensures { result ≡ event_text form is_first event.now }
{
    let mut line = Line::new();
    match form {
        ReportForm::Text => {
            line.text(b"event ");
            line.number(event.number);
            line.text(b" ");
            line.clock(event.time);
            line.text(b" '");
            line.character(event.code);
            line.text(b"'\n");
        }
        ReportForm::Json => {
            line.text(comma(form, is_first));
            line.text(b"{\"number\":");
            line.number(event.number);
            line.text(b",\"time\":\"");
            line.clock(event.time);
            line.text(b"\",\"ns\":");
            line.number(event.time);
            line.text(b",\"event_code\":\"");
            line.escaped(event.code);
            line.text(b"\"}");
        }
    }
    line
}

/// Returns the text after the events.
pub fn tail_text(form: ReportForm) -> &'static [u8]
    ensures text { result.now ≡ tail_text form }
    ensures short { length result.now ≤ 256 }
{
    match form {
        ReportForm::Text => b"",
        ReportForm::Json => b"]}\n",
    }
}

// Appends a time of the day, or none.
fn push_time(line: &mut Line, form: ReportForm, time: Option<u64>)
    requires { length line.old ≤ 160 }
    ensures text { line.new ≡ line.old ++ time_text form time }
    ensures short { length line.new ≤ length line.old + 80 }
{
    match (form, time) {
        (ReportForm::Text, None) => line.text(b"none"),
        (ReportForm::Text, Some(time)) => line.clock(time),
        (ReportForm::Json, None) => line.text(b"null"),
        (ReportForm::Json, Some(time)) => {
            line.text(b"{\"time\":\"");
            line.clock(time);
            line.text(b"\",\"ns\":");
            line.number(time);
            line.text(b"}");
        }
    }
}

fn truth_text(form: ReportForm, truth: bool) -> &'static [u8]
    ensures text { result.now ≡ truth_text form truth }
    ensures short { length result.now ≤ 5 }
{
    match (form, truth) {
        (ReportForm::Text, true) => b"yes",
        (ReportForm::Text, false) => b"no",
        (ReportForm::Json, true) => b"true",
        (ReportForm::Json, false) => b"false",
    }
}

// Returns the separator before a member, unless it is the first.
fn comma(form: ReportForm, is_first: bool) -> &'static [u8]
    ensures text { result.now ≡ comma form is_first }
    ensures short { length result.now ≤ 1 }
{
    match (form, is_first) {
        (ReportForm::Json, false) => b",",
        _ => b"",
    }
}
