// The lent buffers: an event is written after the previous ones.
#![tactic(auto)]

ghost use Rattle.std.specs.Prelude.{◌≤◌, length, ◌≡◌, ◌∷◌, [], ◌+◌, ◌*◌, ◌<◌};
ghost use Rattle.rules.specs.Lent.{bytes_of};
ghost use Rattle.rules.specs.Events.{event_width};
ghost use Rattle.numbers.specs.Written.{written};
ghost use Rattle.event_buffer.specs.Buffers.{noted, Puts, PutsOver};

use layout::{AttributeNo, EVENT, ElementNo, NUMBER, Place};

// What an event says.
#[derive(Clone, Copy, Debug, PartialEq, Eq)]
pub enum Kind {
    Start = 1,
    InferredStart = 2,
    End = 3,
    InferredEnd = 4,
    Data = 5,
    EmptyEnd = 6,
    Attribute = 7,
    DefaultedAttribute = 8,
}

// The numbers of an event, after n events, if they fit.
fn note_numbers(
    buffer: &mut [u32],
    n: usize,
    kind: u32,
    element: u32,
    at: u32,
    size: u32,
    place: u32,
)
    requires { n < 4294967296 }
    ensures { buffer.new ≡ written buffer.old (event_width * n) (kind ∷ element ∷ at ∷ size ∷ place ∷ []) }
{
    let i = EVENT * n;
    if i + EVENT <= buffer.len() {
        buffer[i] = kind;
        buffer[i + 1] = element;
        buffer[i + 2] = at;
        buffer[i + 3] = size;
        buffer[i + 4] = place;
    }
}

// A number as four bytes, low byte first, from the byte i on.
// Kept: four stores, and no `to_le_bytes` (tried-speed), here and below: an event that was put as one array, copied to
// its place, took a quarter more instructions of the whole reading of a catalogue.
fn put_number(buffer: &mut [u8], i: usize, x: u32)
    requires { i + 4 ≤ length buffer.old }
    ensures { buffer.new ≡ written buffer.old i (bytes_of (x ∷ [])) }
{
    buffer[i] = (x % 256) as u8;
    buffer[i + 1] = (x / 256 % 256) as u8;
    buffer[i + 2] = (x / 65536 % 256) as u8;
    buffer[i + 3] = (x / 16777216 % 256) as u8;
}

// The numbers of an event as four bytes each, low byte first, after n events, if they fit.
fn note_bytes(buffer: &mut [u8], n: usize, kind: u32, element: u32, at: u32, size: u32, place: u32)
    requires { n < 4294967296 }
    ensures { buffer.new ≡ written buffer.old (4 * event_width * n) (bytes_of (kind ∷ element ∷ at ∷ size ∷ place ∷ [])) }
{
    let i = NUMBER * EVENT * n;
    if i + NUMBER * EVENT <= buffer.len() {
        put_number(buffer, i, kind);
        put_number(buffer, i + 4, element);
        put_number(buffer, i + 8, at);
        put_number(buffer, i + 12, size);
        put_number(buffer, i + 16, place);
    }
}

// An event, after n others, to each buffer that it fits whole; where n + 1 are there it goes over the last of them. What a buffer holds that is too small for all events is not decided;
// it keeps its length. Nor is it where the n events in one buffer are not those in the other.
pub fn put_event(
    numbers: &mut [u32],
    bytes: &mut [u8],
    n: usize,
    kind: u32,
    element: ElementNo,
    at: usize,
    size: usize,
    place: Place,
) -> usize
    requires { (n < 4294967296) × (element.0 < 4294967296) × (at < 4294967296) × (size < 4294967296) × (place.0 < 4294967296) }
    ensures { (result ≡ n + 1) × Puts numbers.old bytes.old n (noted kind element.0 at size place.0 ∷ []) numbers.new bytes.new ×
        PutsOver numbers.old bytes.old n (noted kind element.0 at size place.0) numbers.new bytes.new }
{
    let e = element.0 as u32;
    let i = at as u32;
    let k = size as u32;
    let p = place.0 as u32;
    note_numbers(numbers, n, kind, e, i, k, p);
    note_bytes(bytes, n, kind, e, i, k, p);
    n + 1
}

// The event of an attribute, after n others, as `put_event` puts one: kind 7 or 8, its number, and offset and length of its value.
pub fn put_attribute(
    numbers: &mut [u32],
    bytes: &mut [u8],
    n: usize,
    kind: u32,
    attribute: AttributeNo,
    at: usize,
    size: usize,
) -> usize
    requires { (n < 4294967296) × (attribute.0 < 4294967296) × (at < 4294967296) × (size < 4294967296) }
    ensures { (result ≡ n + 1) × Puts numbers.old bytes.old n (noted kind attribute.0 at size 0 ∷ []) numbers.new bytes.new }
{
    let a = attribute.0 as u32;
    let i = at as u32;
    let k = size as u32;
    note_numbers(numbers, n, kind, a, i, k, 0);
    note_bytes(bytes, n, kind, a, i, k, 0);
    n + 1
}
