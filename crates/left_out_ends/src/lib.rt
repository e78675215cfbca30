// The ends that an end tag and the document's end infer, from the current element outwards.
//
// `facts` is a table of the type (crate type_tables). Whether an open element is complete is kept with it.
// The buffers hold n events before. If the table is not that of a type, or the state is not one of that type,
// the result is unspecified, except that the state's numbers are in range, that as many events were written
// as are counted, and that the number of a refusal is below 20.
#![tactic(auto)]

ghost use Rattle.std.specs.Prelude.{◌+◌, ◌<◌};
ghost use Rattle.layout.specs.Sizes.{TOKEN_EVENTS};
ghost use Rattle.open_elements.specs.Stands.{Ranged};
ghost use Rattle.left_out_ends.specs.Until.{Judges, Until};

use event_buffer::Kind;
use layout::{ElementNo, FACTS, Place};
use open_elements::{OpenElements, Outcome};
use text::Refusal;

// Why the current element cannot have its end inferred by an end tag or the document's end.
fn end_fault(facts: &[u8; FACTS], o: OpenElements) -> Result<(), Refusal>
    requires { Ranged o }
    ensures { Judges facts.now o result }
{
    let complete = o.complete;
    let e = o.element;
    let omitted = type_tables::end_omitted(facts, e);
    if !complete {
        return Err(Refusal::Incomplete);
    }
    if !omitted {
        return Err(Refusal::EndMissing);
    }
    Ok(())
}

// Ends are inferred until the current element is x, or there is nothing around it. Where that is refused no
// state is handed back, and of what the buffers hold nothing is decided, but that at most so many ends are
// put behind the n events as elements were open.
pub fn end_until(
    facts: &[u8; FACTS],
    state: OpenElements,
    x: ElementNo,
    at: usize,
    n: usize,
    numbers: &mut [u32],
    bytes: &mut [u8],
) -> Result<Outcome, Refusal>
    requires { Ranged state × (at < 4294967296) × (n + TOKEN_EVENTS < 4294967296) }
    ensures { Until facts.now x.0 at n state numbers.old bytes.old result numbers.new bytes.new }
{
    let mut o = state;
    let mut k = n;
    // Kept: the state counts down by `infer_end`, so that no index is counted here (plainer).
    while 0 < o.count {
        let e = o.element;
        if e.0 == x.0 {
            return Ok(Outcome { open: o, events: k });
        }
        end_fault(facts, o)?;
        let none = Place(0);
        k = event_buffer::put_event(numbers, bytes, k, Kind::InferredEnd as u32, e, at, 0, none);
        o = o.infer_end();
    }
    Ok(Outcome { open: o, events: k })
}
