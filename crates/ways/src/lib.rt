// How the current element responds to a start tag or to data: whether it fits, how many starts are inferred
// before it, and whether the element's end is inferred. Nothing is changed here.
//
// `t` are the tables of the type, or `facts` the one of them that is asked (crate type_tables). x is the
// element that starts, or 0 for data. If the tables are not those of a type, a result is unspecified, except
// for the range in its contract.
//
// Kept: 0 for no chain and `Place(0)` for no place: (plainer) so the rules have it (`chained`, `place_of` in
// specs/Asks), and `x.0 == 0` for data is a name's number.
#![tactic(auto)]

ghost use Rattle.std.specs.Prelude.{◌≡◌, Bool, true, false, ◌&&◌, List, [], ℕ, ◌≤◌, ◌<◌, length, eqb, leb};
ghost use Rattle.rules.specs.TypeFile.{Element};
ghost use Rattle.rules.specs.Elements.{content_of, has_model};
ghost use Rattle.rules.specs.Decisions.{Token};
ghost use Rattle.rules.specs.Decisions as decisions;
ghost use Rattle.rules.specs.Settling as rules;
ghost use Rattle.rules.specs.Bytes.{GRPGTCNT, TAGLVL, element_limit};
ghost use Rattle.document_laws.specs.Decide.{decided};
ghost use Rattle.type_tables.specs.Tables.{name_number, Declares, Facts, Tables, Entered};
ghost use Rattle.ways.specs.Asks.{way_of, chained, starts_of, fit_of, place_of, Requires, MayEnd};

use layout::{BEGUN, ELEMENTS, ElementNo, FACTS, Place, TAGLVL};
use open_elements::OpenElements;
use type_tables::TypeTables;

// What the current element has to say to a start tag or a data byte.
#[derive(Clone, Copy)]
pub enum Way {
    // It fits at this place.
    Taken(Place),
    // So many starts are inferred before it.
    Inferred(usize),
    Stuck,
}

// How many starts must be inferred in the element e where the place q is required before x fits, or 0 if
// there is no such chain.
fn chain(t: TypeTables, e: ElementNo, q: Place, x: ElementNo) -> usize
    requires { (e.0 ≤ element_limit) × (x.0 ≤ element_limit) }
    ensures by_index { (s : List ℕ) (es : List Element) (M : List ℕ) →
        Tables s es t.entry.rows.now t.entry.places.now t.entry.facts.now M →
        (o : rules.Open) → Requires s es M e.0 q.0 o → (k : Token) → name_number k ≡ x.0 → Declares es k →
        result ≡ chained s es (decided s es) k o }
    ensures upper_bound { result ≤ element_limit }
{
    let mut c = type_tables::startable(t, e, q);
    for n in 1..ELEMENTS + 1 {
        if c.0 == 0 {
            return 0;
        }
        let p = type_tables::fitting_first(t, c, x);
        if p.0 != 0 {
            return n;
        }
        c = type_tables::inferable(t, c);
    }
    0
}

// Steps 1 and 2 at the element e after the place u at the level, where the place q is required.
pub fn way_at(
    t: TypeTables,
    begun: &[u32; BEGUN],
    level: usize,
    e: ElementNo,
    u: Place,
    q: Place,
    x: ElementNo,
) -> Way
    requires { (level ≤ TAGLVL) × (e.0 ≤ element_limit) × (u.0 ≤ GRPGTCNT) × (x.0 ≤ element_limit) }
    ensures by_index { (s : List ℕ) (es : List Element) → Tables s es t.entry.rows.now t.entry.places.now
        t.entry.facts.now t.entry.members.now →
        (o : rules.Open) → Entered es t.entry.members.now begun.now level e.0 u.0 o →
        q.0 ≡ rules.required_place s es (decided s es) o →
        (k : Token) → name_number k ≡ x.0 → Declares es k → result ≡ way_of (rules.fitting s es (decided s es)
        o k) (chained s es (decided s es) k o) }
    ensures result_bound { (fit_of result ≤ GRPGTCNT) × (starts_of result ≤ element_limit) }
{
    let p = type_tables::fitting(t, begun, level, e, u, x);
    if p.0 != 0 {
        return Way::Taken(p);
    }
    let n = chain(t, e, q, x);
    if n != 0 {
        return Way::Inferred(n);
    }
    Way::Stuck
}

// Whether step 3 infers the current element's end: its content is complete, its end is "O" and it is not the
// document element. The document alone lies around the document element.
pub fn may_end(facts: &[u8; FACTS], o: OpenElements) -> bool
    requires { o.element.0 ≤ element_limit }
    ensures may_end { MayEnd facts.now o result }
    ensures lt_count { result ≡ true → (1 < o.count) × (o.complete ≡ true) }
{
    if o.count <= 1 {
        return false;
    }
    if !o.complete {
        return false;
    }
    let e = o.element;
    type_tables::end_omitted(facts, e)
}

// How many starts are inferred.
pub fn starts_of(w: Way) -> usize
    ensures { result ≡ starts_of w }
{
    match w {
        Way::Taken(_) => 0,
        Way::Inferred(k) => k,
        Way::Stuck => 0,
    }
}

// The place of x by what was found, in the element e, or 0 where nothing fits. Where starts were inferred, e
// is the last that was started, in which nothing was taken.
pub fn place_of(t: TypeTables, e: ElementNo, found: Way, x: ElementNo) -> Place
    requires { (e.0 ≤ element_limit) × (x.0 ≤ element_limit) × (fit_of found ≤ GRPGTCNT) }
    ensures by_index { (s : List ℕ) (es : List Element) (M : List ℕ) →
        Tables s es t.entry.rows.now t.entry.places.now t.entry.facts.now M → e.0 ≤ length es →
        (k : Token) → name_number k ≡ x.0 → Declares es k → result.0 ≡ place_of ((decided s es).fits e.0 [] k)
        found }
    ensures result_bound { result.0 ≤ GRPGTCNT }
{
    match found {
        Way::Taken(p) => p,
        Way::Inferred(_) => type_tables::fitting_first(t, e, x),
        Way::Stuck => Place(0),
    }
}

// Whether x is an element for which there is no room among so many.
pub fn is_full(count: usize, x: ElementNo) -> bool
    ensures { (x.0 ≡ 0 → result ≡ false) × ((x.0 ≡ 0 → ⊥) → result ≡ leb TAGLVL count) }
{
    if x.0 == 0 {
        return false;
    }
    TAGLVL <= count
}

// Whether x is an element with a model: it is open once it has started.
pub fn opens(facts: &[u8; FACTS], x: ElementNo) -> bool
    requires { x.0 ≤ element_limit }
    ensures { (x.0 ≡ 0 → result ≡ false) × ((s : List ℕ) (es : List Element) (raised : ℕ → Bool) →
        Facts s es raised facts.now → Declares es (decisions.start x.0) →
        result ≡ has_model (content_of es x.0)) }
{
    if x.0 == 0 {
        return false;
    }
    type_tables::has_model(facts, x)
}

// Whether the document element was there and has ended: the document itself is the current element, and it is
// complete.
pub fn is_over(o: OpenElements) -> bool
    ensures { result ≡ (eqb o.element.0 0 && o.complete) }
{
    let e = o.element;
    if e.0 != 0 {
        return false;
    }
    o.complete
}
