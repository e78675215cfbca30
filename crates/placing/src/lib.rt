// How a start tag or a run of data takes its place in the current element, its events written after the
// previous ones.
//
// `t` are the tables of the type (crate type_tables). x is the element that starts, or 0 for data. n is the
// number of events so far; they are written to `numbers` and `bytes` (crate event_buffer). A start tag ends
// at `shown`, and data is shown up to there: a byte 13 that ends a run may turn out to be ignored, and is
// then no part of its event. If the tables are not those of a type, or the state is not one of that type, the
// result is unspecified, except that the state's numbers are in range, that as many events were written as
// are counted, and that the number of a refusal is below 20.
#![tactic(auto)]

ghost use Rattle.std.specs.Prelude.{◌+◌, ◌≤◌, ◌<◌};
ghost use Rattle.rules.specs.Bytes.{GRPGTCNT, element_limit};
ghost use Rattle.open_elements.specs.Stands.{Ranged};
ghost use Rattle.ways.specs.Asks.{fit_of};
ghost use Rattle.placing.specs.Noting.{Writes, Placed};

use event_buffer::Kind;
use layout::{BEGUN, ElementNo, FACTS, Place};
use open_elements::{OpenElements, Outcome};
use text::Refusal;
use type_tables::TypeTables;
use ways::Way;

// The events of a run of data, none where no byte of it is shown, or of an element x, which took this place:
// the end of an EMPTY element stands behind its tag.
fn put_written(
    facts: &[u8; FACTS],
    x: ElementNo,
    taken: Place,
    at: usize,
    shown: usize,
    n: usize,
    numbers: &mut [u32],
    bytes: &mut [u8],
) -> usize
    requires { (x.0 ≤ element_limit) × (taken.0 ≤ GRPGTCNT) × (at ≤ shown) × (shown < 4294967296) ×
        (n + 2 < 4294967296) }
    ensures { Writes facts.now x.0 taken.0 at shown n numbers.old bytes.old result numbers.new bytes.new }
{
    let none = Place(0);
    if x.0 == 0 {
        if at == shown {
            return n;
        }
        return event_buffer::put_event(
            numbers,
            bytes,
            n,
            Kind::Data as u32,
            x,
            at,
            shown - at,
            none,
        );
    }
    let m = event_buffer::put_event(
        numbers,
        bytes,
        n,
        Kind::Start as u32,
        x,
        at,
        shown - at,
        taken,
    );
    if ways::opens(facts, x) {
        return m;
    }
    event_buffer::put_event(numbers, bytes, m, Kind::EmptyEnd as u32, x, shown, 0, none)
}

// The token takes its place by what was found, and its events are put; an element with a model is left for
// the caller to open.
pub fn placed(
    t: TypeTables,
    begun: &mut [u32; BEGUN],
    state: OpenElements,
    found: Way,
    x: ElementNo,
    at: usize,
    shown: usize,
    n: usize,
    numbers: &mut [u32],
    bytes: &mut [u8],
) -> Result<Outcome, Refusal>
    requires { Ranged state × (fit_of found ≤ GRPGTCNT) × (x.0 ≤ element_limit) × (at ≤ shown) ×
        (shown < 4294967296) × (n + 2 < 4294967296) }
    ensures { Placed t.entry.rows.now t.entry.places.now t.entry.facts.now t.entry.members.now begun.old found
        x.0 at shown n state numbers.old bytes.old result begun.new numbers.new bytes.new }
{
    let e = state.element;
    let p = ways::place_of(t, e, found, x);
    if p.0 == 0 {
        return Err(Refusal::NotAllowedHere);
    }
    if ways::is_full(state.count, x) {
        return Err(Refusal::TooDeep);
    }
    let taken = open_elements::place_shown(e, p);
    let last = state.take(t, begun, p);
    let m = put_written(t.facts, x, taken, at, shown, n, numbers, bytes);
    Ok(Outcome {
        open: last,
        events: m,
    })
}
