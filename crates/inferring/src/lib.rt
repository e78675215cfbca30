// The ends and starts that are inferred before a start tag or a run of data, their events written after the
// previous ones.
//
// `t` are the tables of the type (crate type_tables). x is the element that starts, or 0 for data. n is the
// number of events so far; they are written to `numbers` and `bytes` (crate event_buffer). If the tables are
// not those of a type, or the state is not one of that type, which ends and starts are inferred is
// unspecified, except that the state's numbers are in range and that as many events were written as are
// counted.
#![tactic(auto)]

ghost use Rattle.std.specs.Prelude.{◌+◌, ◌≤◌, ◌<◌};
ghost use Rattle.rules.specs.Bytes.{TAGLVL, element_limit};
ghost use Rattle.layout.specs.Sizes.{TOKEN_EVENTS};
ghost use Rattle.open_elements.specs.Stands.{Ranged};
ghost use Rattle.inferring.specs.Inferring.{Stops, Chooses, InfersStart};

use event_buffer::Kind;
use layout::{BEGUN, ElementNo, Place};
use open_elements::OpenElements;
use type_tables::TypeTables;
use ways::Way;

// Where no more ends are inferred: the state come to, what its current element has to say to the token, and
// how many events there are.
#[derive(Drop)]
pub struct Stop {
    pub open: OpenElements,
    pub found: Way,
    pub events: usize,
}

// Step 3, again and again: ends are inferred until x fits or starts can be inferred before it, or it is
// stuck.
pub fn ends(
    t: TypeTables,
    begun: &[u32; BEGUN],
    state: OpenElements,
    x: ElementNo,
    at: usize,
    n: usize,
    numbers: &mut [u32],
    bytes: &mut [u8],
) -> Stop
    requires { Ranged state × (x.0 ≤ element_limit) × (at < 4294967296) × (n + TOKEN_EVENTS < 4294967296) }
    ensures { Stops t.entry.rows.now t.entry.places.now t.entry.facts.now t.entry.members.now begun.now x.0 at
        n state numbers.old bytes.old result numbers.new bytes.new }
{
    let mut o = state;
    let mut m = n;
    let found = loop {
        let k = o.count;
        let e = o.element;
        let u = o.place;
        let q = o.required;
        let w = ways::way_at(t, begun, k, e, u, q, x);
        let Way::Stuck = w else {
            break w;
        };
        if !ways::may_end(t.facts, o) {
            break w;
        }
        let none = Place(0);
        m = event_buffer::put_event(numbers, bytes, m, Kind::InferredEnd as u32, e, at, 0, none);
        o = o.infer_end();
    };
    Stop {
        open: o,
        found: found,
        events: m,
    }
}

// The element whose start is inferred next: its attribute events come before it.
pub fn next_start(t: TypeTables, state: OpenElements) -> ElementNo
    requires { Ranged state }
    ensures { Chooses t.entry.places.now t.entry.facts.now state result.0 × (result.0 ≤ element_limit) }
{
    let e = state.element;
    let q = state.required;
    type_tables::startable(t, e, q)
}

// One start is inferred: the required place is taken, and its element opened.
pub fn infer_start(
    t: TypeTables,
    begun: &mut [u32; BEGUN],
    state: OpenElements,
    at: usize,
    n: usize,
    numbers: &mut [u32],
    bytes: &mut [u8],
) -> OpenElements
    requires { Ranged state × (state.count < TAGLVL) × (at < 4294967296) × (n < 4294967296) }
    ensures { InfersStart t.entry.rows.now t.entry.places.now t.entry.facts.now t.entry.members.now begun.old
        at n state numbers.old bytes.old result begun.new numbers.new bytes.new }
{
    let e = state.element;
    let q = state.required;
    let k = type_tables::startable(t, e, q);
    let shown = open_elements::place_shown(e, q);
    event_buffer::put_event(
        numbers,
        bytes,
        n,
        Kind::InferredStart as u32,
        k,
        at,
        0,
        shown,
    );
    state.start_required(t, begun, k)
}
