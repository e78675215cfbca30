// How an end tag and the document's end close open elements.
//
// `facts` is a table of the type (crate type_tables). Whether an open element is complete is kept with it.
// The buffers hold n events before. If the table is not that of a type, or the state is not one of that type,
// the result is unspecified, except that the state's numbers are in range, that as many events were written
// as are counted, and that the number of a refusal is below 20.
#![tactic(auto)]

ghost use Rattle.std.specs.Prelude.{◌+◌, ◌≤◌, ◌<◌};
ghost use Rattle.rules.specs.Bytes.{element_limit};
ghost use Rattle.layout.specs.Sizes.{TOKEN_EVENTS};
ghost use Rattle.open_elements.specs.Stands.{Ranged};
ghost use Rattle.closing.specs.Closed.{Tagged, Finished};

use event_buffer::Kind;
use layout::{ElementNo, FACTS, Place};
use open_elements::{OpenElements, Outcome};
use text::Refusal;

// The end tag of the element x, from `at` to `after`. Where it is refused nothing decides what the buffers
// hold: nobody reads them.
pub fn end_tag(
    facts: &[u8; FACTS],
    state: OpenElements,
    x: ElementNo,
    at: usize,
    after: usize,
    n: usize,
    numbers: &mut [u32],
    bytes: &mut [u8],
) -> Result<Outcome, Refusal>
    requires { Ranged state × (at ≤ after) × (after < 4294967296) × (x.0 ≤ element_limit) ×
        (n + TOKEN_EVENTS < 4294967296) }
    ensures { Tagged facts.now x.0 at after n state numbers.old bytes.old result numbers.new bytes.new }
{
    if !state.is_open(x) {
        return Err(Refusal::NotOpen);
    }
    let l = left_out_ends::end_until(facts, state, x, at, n, numbers, bytes)?;
    let o = l.open;
    if o.count == 0 {
        return Err(Refusal::NotOpen);
    }
    if !o.complete {
        return Err(Refusal::Incomplete);
    }
    let none = Place(0);
    let k = event_buffer::put_event(
        numbers,
        bytes,
        l.events,
        Kind::End as u32,
        x,
        at,
        after - at,
        none,
    );
    Ok(Outcome {
        open: o.end(),
        events: k,
    })
}

// The document's end, at its length. The state is not used any more: nothing decides it, but that its numbers
// are in range. Where the end is refused, nor are the buffers decided.
pub fn finish(
    facts: &[u8; FACTS],
    state: OpenElements,
    at: usize,
    n: usize,
    numbers: &mut [u32],
    bytes: &mut [u8],
) -> Result<Outcome, Refusal>
    requires { Ranged state × (at < 4294967296) × (n + TOKEN_EVENTS < 4294967296) }
    ensures { Finished facts.now at n state numbers.old bytes.old result numbers.new bytes.new }
{
    let document = ElementNo(0);
    let l = left_out_ends::end_until(facts, state, document, at, n, numbers, bytes)?;
    let left = l.open;
    if !left.complete {
        return Err(Refusal::NoDocument);
    }
    Ok(l)
}
