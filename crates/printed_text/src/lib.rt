// The text that the small program prints for a type file and a document.
#![tactic(auto)]

ghost use Rattle.std.specs.Prelude.{◌≡◌, ◌≤◌, length, take};
ghost use Rattle.io.specs.Counts.{IsPrefixLen};
ghost use Rattle.rules.specs.Printed.{program_settings, Prints};
ghost use Rattle.layout.specs.Sizes.{ATTRIBUTE_RECORDS, PROGRAM_EVENTS, PROGRAM_TEXT};
ghost use Rattle.inputs.specs.Checks.{settings_of};
ghost use Rattle.type_judge.specs.Decides.{refusal_by};
ghost use Rattle.one_document.specs.Answer.{refusal_of};
ghost use Rattle.printed_text.specs.Accepted.{Accepted, ListedIn, EventsPut};
ghost use Rattle.printed_text.specs.Answers.{refusal_text};

use event_names::{Events, Names};
use inputs::Settings;
use layout::{ATTRIBUTE_RECORDS, PROGRAM_NAME_LENGTH, PROGRAM_ROOM, RECORDS};
use text::Refusal;
use type_judge::TypeFault;
use type_stage::Refused;

// What the program gives: names as long as it reads them, and the first edition.
fn given() -> Settings
    ensures { settings_of result ≡ program_settings }
{
    Settings {
        name_length: PROGRAM_NAME_LENGTH,
        edition: 1,
    }
}

// How many attributes a type has that is accepted, and their records.
fn listed(s: &[u8], attributes: &mut [u32; ATTRIBUTE_RECORDS]) -> usize
    requires { Accepted s.now × (length attributes.old ≡ ATTRIBUTE_RECORDS) }
    ensures { ListedIn s.now attributes.new result }
{
    match attribute_records::list(given(), s, attributes) {
        Ok(t) => t,
        // Never: the type is accepted, and its attributes have room.
        Err(_) => 0,
    }
}

// The text of n events of a document whose type is accepted; the judge gives where its elements' names stand, and the list of attributes where theirs do. What out holds behind the text
// is decided neither here nor below.
fn put_events(out: &mut [u8], s: &[u8], numbers: &[u32; PROGRAM_ROOM], n: usize) -> usize
    requires { (PROGRAM_TEXT ≤ length out.old) × Accepted s.now × (n ≤ PROGRAM_EVENTS) }
    ensures { IsPrefixLen result out.new × EventsPut s.now numbers.now n (take result out.new) }
{
    let mut elements = [0u32; RECORDS];
    // It is accepted: what is asked for are the records.
    let _ = type_judge::judge(given(), s, &mut elements);
    let mut attributes = [0u32; ATTRIBUTE_RECORDS];
    let total = listed(s, &mut attributes);
    let names = Names {
        s,
        elements: &elements,
        attributes: &attributes,
        total,
    };
    let events = Events { numbers, count: n };
    event_lines::put_events(out, names, events)
}

// The text of the refusal of a type.
fn put_type_fault(out: &mut [u8], t: TypeFault) -> usize
    requires { PROGRAM_TEXT ≤ length out.old }
    ensures { (result ≤ length out.new) × (take result out.new ≡ refusal_text (refusal_by t)) }
{
    match t {
        TypeFault::Malformed(f) => event_lines::put_refusal(out, f.number, b"in type at ", f.at),
        TypeFault::Ambiguous(c) => {
            let number = Refusal::Ambiguous as u32;
            event_lines::put_refusal(out, number, b"in type at ", c.at as usize)
        }
    }
}

// The text of a refusal.
fn put_refused(out: &mut [u8], x: Refused) -> usize
    requires { PROGRAM_TEXT ≤ length out.old }
    ensures { (result ≤ length out.new) × (take result out.new ≡ refusal_text (refusal_of x)) }
{
    match x {
        Refused::InType(t) => put_type_fault(out, t),
        Refused::InDocument(f) => event_lines::put_refusal(out, f.number, b"in document at ", f.at),
    }
}

// The text that is printed for a type file and a document, at the start of out.
pub fn printed(s: &[u8], d: &[u8], out: &mut [u8]) -> usize
    requires { PROGRAM_TEXT ≤ length out.old }
    ensures { IsPrefixLen result out.new × Prints s.now d.now (take result out.new) }
{
    let mut numbers = [0u32; PROGRAM_ROOM];
    match document_reader::read(given(), s, d, &mut numbers) {
        Ok(n) => put_events(out, s, &numbers, n),
        Err(x) => put_refused(out, x),
    }
}
