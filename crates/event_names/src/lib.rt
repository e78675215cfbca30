// The names in the lines of events, written into a line.
#![tactic(auto)]

ghost use Rattle.std.specs.Prelude.{◌≡◌, ◌||◌, ◌+◌, ◌-◌, ◌≤◌, ◌<◌, ◌*◌, length, eqb};
ghost use Rattle.rules.specs.Bytes.{ATTCNT, element_limit, SPACE};
ghost use Rattle.rules.specs.Printed.{word, program_name_length};
ghost use Rattle.layout.specs.Sizes.{PROGRAM_EVENTS};
ghost use Rattle.line_text.specs.Adds.{Adds};
ghost use Rattle.event_names.specs.Names.{Fits, FitsAttributes};
ghost use Rattle.event_names.specs.Names.{name_in, starts_at, RecordFound, attribute_in, named_at};

use layout::{ATTRIBUTE_RECORD, ATTRIBUTE_RECORDS, EVENT, PROGRAM_ROOM, RECORD, RECORDS};
use line_text::Line;

// How many elements a type may have, as a number of an event.
const ELEMENTS: u32 = layout::ELEMENTS as u32;

// The events of a document by their numbers, and how many they are.
#[derive(Clone, Copy)]
pub struct Events<'a> {
    pub numbers: &'a [u32; PROGRAM_ROOM],
    pub count: usize,
    pub ghost few: { count ≤ PROGRAM_EVENTS },
}

// The names of a type: the type file, the records of its elements, and those of its attributes (crate attribute_records),
// `total` of them.
#[derive(Clone, Copy)]
pub struct Names<'a> {
    pub s: &'a [u8],
    pub elements: &'a [u32; RECORDS],
    pub attributes: &'a [u32; ATTRIBUTE_RECORDS],
    pub total: usize,
    pub ghost elements_fit: { Fits s.now elements.now },
    pub ghost attributes_fit: { FitsAttributes s.now attributes.now total },
    pub ghost few: { total ≤ ATTCNT * element_limit },
}

// Whether x is a or b.
fn is_either(x: u32, a: u32, b: u32) -> bool
    ensures { result ≡ (eqb x a || eqb x b) }
{
    x == a || x == b
}

// Elements and attributes count from 1. The rules read 0, which no reading gives here, as the first.
fn counted(x: u32) -> u32
    ensures { result ≡ x - 1 + 1 }
{
    x.max(1)
}

impl<'a> Events<'a> {
    // The number of the element that starts next, at the event k or behind it; 0 if none does.
    // Kept: 0 for none is the rules' own answer (fixed: `starts_next` of `Printed`), and is read on as a number.
    fn starts_next(self, k: usize) -> u32
        ensures { result ≡ starts_at self.entry.numbers.now k self.entry.count }
    {
        for j in k..self.count {
            let i = EVENT * j;
            if is_either(self.numbers[i], 1, 2) {
                return self.numbers[i + 1];
            }
        }
        0
    }
}

impl<'a> Names<'a> {
    // The name of the element with the number x, `-` for 0, and a space after it.
    fn put_name(self, line: &mut Line, x: u32)
        requires { line.old.at + program_name_length + 1 ≤ length line.old.out.now }
        ensures same_reference { line.new.out.ghost_name ≡ line.old.out.ghost_name }
        ensures adds { Adds line.old.out.now line.old.at line.new.out.now line.new.at
            (word (name_in self.entry.s.now self.entry.elements.now x) SPACE) }
        ensures short { line.new.at ≤ line.old.at + program_name_length + 1 }
    {
        if x == 0 {
            line.put_byte(b'-');
            line.put_byte(b' ');
            return;
        }
        if ELEMENTS < x {
            line.put_byte(b' ');
            return;
        }
        let number = numbers::widened(x);
        let k = RECORD * (number - 1);
        let from = numbers::widened(self.elements[k]);
        let size = numbers::widened(self.elements[k + 1]);
        line.put_upper(self.s, from, size);
        line.put_byte(b' ');
    }

    // The record of the attribute a of the element e.
    fn record_of(self, e: u32, a: u32) -> Option<usize>
        ensures { RecordFound self.entry.attributes.now self.entry.total e a result }
    {
        for k in 0..self.total {
            let i = ATTRIBUTE_RECORD * k;
            if self.attributes[i] == e && self.attributes[i + 1] == a {
                return Some(k);
            }
        }
        None
    }

    // The name of the attribute a of the element e, and a space after it: by the first record that is of
    // both, and the space alone where none is.
    fn put_attribute(self, line: &mut Line, e: u32, a: u32)
        requires { line.old.at + program_name_length + 1 ≤ length line.old.out.now }
        ensures same_reference { line.new.out.ghost_name ≡ line.old.out.ghost_name }
        ensures adds { Adds line.old.out.now line.old.at line.new.out.now line.new.at
            (word (attribute_in self.entry.s.now self.entry.attributes.now self.entry.total e a) SPACE) }
        ensures short { line.new.at ≤ line.old.at + program_name_length + 1 }
    {
        let Some(k) = self.record_of(counted(e), counted(a)) else {
            line.put_byte(b' ');
            return;
        };
        let i = ATTRIBUTE_RECORD * k;
        let from = numbers::widened(self.attributes[i + 2]);
        let size = numbers::widened(self.attributes[i + 3]);
        line.put_upper(self.s, from, size);
        line.put_byte(b' ');
    }

    // The name that the event k has, and a space after it: under kinds 7 and 8 that of an attribute.
    pub fn put_named(self, line: &mut Line, events: Events, k: usize)
        requires { (line.old.at + program_name_length + 1 ≤ length line.old.out.now) × (k < events.count) }
        ensures same_reference { line.new.out.ghost_name ≡ line.old.out.ghost_name }
        ensures adds { Adds line.old.out.now line.old.at line.new.out.now line.new.at
            (word (named_at self.entry.s.now self.entry.elements.now self.entry.attributes.now self.entry.total
            events.entry.numbers.now k events.entry.count) SPACE) }
        ensures short { line.new.at ≤ line.old.at + program_name_length + 1 }
    {
        let i = EVENT * k;
        let x = events.numbers[i + 1];
        if is_either(events.numbers[i], 7, 8) {
            let e = events.starts_next(k + 1);
            self.put_attribute(line, e, x);
            return;
        }
        self.put_name(line, x);
    }
}
