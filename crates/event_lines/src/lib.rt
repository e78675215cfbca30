// The text of events and of a refusal, written into a buffer word by word. What the buffer holds after the
// text is unspecified.
#![tactic(auto)]

ghost use Rattle.std.specs.Prelude.{◌≡◌, ◌+◌, ◌*◌, ◌≤◌, ◌<◌, length, take};
ghost use Rattle.rules.specs.Printed.{refused_text};
ghost use Rattle.layout.specs.Sizes.{PROGRAM_TEXT, LINE};
ghost use Rattle.line_text.specs.Adds.{Adds};
ghost use Rattle.event_lines.specs.TextOf.{line_at, lines_from, text_of};

use event_names::{Events, Names};
use layout::EVENT;
use line_text::Line;

// The line of the event k.
fn put_event(line: &mut Line, names: Names, events: Events, k: usize)
    requires { (line.old.at + LINE ≤ length line.old.out.now) × (k < events.count) }
    ensures same_reference { line.new.out.ghost_name ≡ line.old.out.ghost_name }
    ensures adds { Adds line.old.out.now line.old.at line.new.out.now line.new.at
        (line_at names.entry.s.now names.entry.elements.now names.entry.attributes.now names.entry.total
        events.entry.numbers.now k events.entry.count) }
    ensures short { line.new.at ≤ line.old.at + LINE }
{
    let i = EVENT * k;
    line.put_number(u64::from(events.numbers[i]), b' ');
    names.put_named(line, events, k);
    line.put_number(u64::from(events.numbers[i + 2]), b' ');
    line.put_number(u64::from(events.numbers[i + 3]), b'\n');
}

// The lines of all events.
fn put_lines(line: &mut Line, names: Names, events: Events)
    requires { line.old.at + LINE * events.count ≤ length line.old.out.now }
    ensures same_reference { line.new.out.ghost_name ≡ line.old.out.ghost_name }
    ensures adds { Adds line.old.out.now line.old.at line.new.out.now line.new.at
        (lines_from names.entry.s.now names.entry.elements.now names.entry.attributes.now names.entry.total
        events.entry.numbers.now events.entry.count 0) }
{
    for k in 0..events.count {
        put_event(line, names, events, k);
    }
}

// `events N`, and the lines of the events, at the start of out; where they end.
pub fn put_events(out: &mut [u8], names: Names, events: Events) -> usize
    requires { PROGRAM_TEXT ≤ length out.old }
    ensures { (result ≤ length out.new) × (take result out.new ≡
        text_of names.entry.s.now names.entry.elements.now names.entry.attributes.now names.entry.total
        events.entry.numbers.now events.entry.count) }
{
    let mut line = Line { out, at: 0 };
    line.put_bytes(b"events ");
    line.put_number(events.count as u64, b'\n');
    put_lines(&mut line, names, events);
    line.at
}

// `refused N`, in which input and at which position, at the start of out; where it ends.
pub fn put_refusal(out: &mut [u8], number: u32, place: &[u8], position: usize) -> usize
    requires { 50 + length place.now ≤ length out.old }
    ensures { (result ≤ length out.new) × (take result out.new ≡ refused_text number place.now position) }
{
    let mut line = Line { out, at: 0 };
    line.put_bytes(b"refused ");
    line.put_number(u64::from(number), b' ');
    line.put_bytes(place);
    line.put_number(position as u64, b'\n');
    line.at
}
