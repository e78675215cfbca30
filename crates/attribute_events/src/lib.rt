// The attribute events before a start event, in declaration order: those that a tag specifies, and those that
// are defaulted.
//
// `lists` is that of the crate list_table, `marks` that of attribute_marks. n is the number of events so far;
// they are written to `numbers` and `bytes` (crate event_buffer).
#![tactic(auto)]

ghost use Rattle.std.specs.Prelude.{◌+◌, ◌≤◌, ◌<◌};
ghost use Rattle.rules.specs.Bytes.{ATTCNT, element_limit};
ghost use Rattle.attribute_events.specs.PutBefore.{PutsOne, PutsWritten, PutsDefaults};

use event_buffer::Kind;
use layout::{AttributeNo, ElementNo, MARKS};

// The event of the attribute k of the element e, from 0, of which the marks say how it is written: none
// where it is not and is required or implied.
fn put_one(
    lists: &[u16],
    e: ElementNo,
    k: usize,
    at: usize,
    size: usize,
    n: usize,
    numbers: &mut [u32],
    bytes: &mut [u8],
) -> usize
    requires { (1 ≤ e.0) × (e.0 ≤ element_limit) × (k < ATTCNT) × (at < 4294967296) ×
        (size < 4294967296) × (n < 4294967296) }
    ensures { PutsOne lists.now e.0 k at size n numbers.old bytes.old result numbers.new bytes.new }
{
    let a = AttributeNo(k + 1);
    if at != 0 {
        let kind = Kind::Attribute as u32;
        return event_buffer::put_attribute(numbers, bytes, n, kind, a, at, size);
    }
    let r = list_table::attribute(lists, e, k);
    if r.default < 2 {
        return n;
    }
    let kind = Kind::DefaultedAttribute as u32;
    event_buffer::put_attribute(numbers, bytes, n, kind, a, r.default, r.width)
}

// Puts the attribute events before the start of the element e, of which a tag gives what the marks say.
fn put_all(
    lists: &[u16],
    marks: &[u16; MARKS],
    e: ElementNo,
    n: usize,
    numbers: &mut [u32],
    bytes: &mut [u8],
) -> usize
    requires { (e.0 ≤ element_limit) × (n + ATTCNT < 4294967296) }
    ensures { PutsWritten lists.now marks.now e.0 n numbers.old bytes.old result numbers.new bytes.new }
{
    let count = list_table::count(lists, e);
    let mut m = n;
    for k in 0..count {
        let at = usize::from(marks[2 * k]);
        let size = usize::from(marks[2 * k + 1]);
        m = put_one(lists, e, k, at, size, m, numbers, bytes);
    }
    m
}

// Puts the attribute events before the start of the element e that a tag with these marks brings, none for
// data, and gives how many events there are now. A type without attributes is told at once.
pub fn put_written(
    lists: &[u16],
    marks: &[u16; MARKS],
    e: ElementNo,
    n: usize,
    numbers: &mut [u32],
    bytes: &mut [u8],
) -> usize
    requires { (e.0 ≤ element_limit) × (n + ATTCNT < 4294967296) }
    ensures { PutsWritten lists.now marks.now e.0 n numbers.old bytes.old result numbers.new bytes.new }
{
    if lists.len() == 0 {
        return n;
    }
    put_all(lists, marks, e, n, numbers, bytes)
}

// Puts the attribute events before the start of the element e that is inferred: all are defaulted.
pub fn put_defaults(
    lists: &[u16],
    e: ElementNo,
    n: usize,
    numbers: &mut [u32],
    bytes: &mut [u8],
) -> usize
    requires { (e.0 ≤ element_limit) × (n + ATTCNT < 4294967296) }
    ensures { PutsDefaults lists.now e.0 n numbers.old bytes.old result numbers.new bytes.new }
{
    if list_table::count(lists, e) == 0 {
        return n;
    }
    let none = [0u16; MARKS];
    put_all(lists, &none, e, n, numbers, bytes)
}
