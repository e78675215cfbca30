// What the document reader needs to know of an accepted type, stored in tables.
//
// Elements have the numbers 1 to 64, in declaration order; 0 stands for the document itself, whose model is
// the one place of the document element. A name is an element's number, or 0 for `#PCDATA`.
//
// `rows`: for each element `POSITIONS` rows of `ROW` numbers. Row 0 is the start, row u is after the place u.
// The bits of the numbers before `REQUIRED` say, bit 0 whether the content is complete, bit p whether the
// place p may come next. That number is the required place, or 0. An EMPTY element's content is complete at
// its start.
//
// `places`: for each element `POSITIONS` pairs. Of the place p: what it names (an element, `PCDATA`, 0 if
// that is not declared), and the next smaller place of the same name, or 0.
//
// `facts`: for each element `FACT` numbers. Number x is the largest place of the name x, or 0. The last three
// are 1 where the start may be omitted, the end may be omitted, and the content is a model.
//
// Whatever the tables hold, each function terminates and stays within them. If they are not those of a type,
// the results of `fitting`, `fitting_first`, `takes_data`, `startable` and `inferable` are unspecified,
// except that a place is at most 96 and an element at most 64.
//
// Kept: `Place(0)` and `ElementNo(0)` for none: (plainer) the tables have 0 there, and so have the rules
// (`fits` of their decisions, `required_place`, `inferable`), which the contracts equate with the answers as
// they stand.
#![tactic(auto)]

ghost use Rattle.std.specs.Prelude.{◌≡◌, Bool, List, [], ℕ, ◌+◌, ◌*◌, ◌%◌, ◌≤◌, ◌<◌, length, get_or, leb};
ghost use Rattle.rules.specs.TypeFile.{Element};
ghost use Rattle.rules.specs.Elements.{content_of, has_model, start_o, end_o};
ghost use Rattle.rules.specs.Decisions.{Token};
ghost use Rattle.rules.specs.Settling as rules;
ghost use Rattle.rules.specs.Decisions as decisions;
ghost use Rattle.rules.specs.Bytes.{GRPGTCNT, TAGLVL, element_limit};
ghost use Rattle.layout.specs.Sizes.{POSITIONS, REQUIRED};
ghost use Rattle.document_laws.specs.Decide.{decided};
ghost use Rattle.document_laws.specs.Moves.{fresh};
ghost use Rattle.type_tables.specs.Tables.{name_number, row_at, complete_at, required_at, Declares, Lowered, Facts, Tables, Entered};

use layout::{
    BEGUN, ELEMENTS, END_OMITTED, ElementNo, FACT, FACTS, GRPGTCNT, HAS_MODEL, LINK, PLACES,
    POSITIONS, Place, RAISE, REQUIRED, ROWS, START_OMITTED,
};

// The tables of a type: what the functions here and those above them read of it.
#[derive(Clone, Copy)]
pub struct TypeTables<'a> {
    pub rows: &'a [u8; ROWS],
    pub places: &'a [u8; PLACES],
    pub facts: &'a [u8; FACTS],
    pub members: &'a [u8],
}

// Whether the row of the element e after the place u has its content complete there.
pub fn complete(rows: &[u8; ROWS], e: ElementNo, u: Place) -> bool
    requires { (e.0 ≤ element_limit) × (u.0 ≤ GRPGTCNT) }
    ensures { result ≡ complete_at rows.now e.0 u.0 }
{
    rows[row_search::row(e, u)] % 2 == 1
}

// What the row of the element e after the place u has for the required place, or 0; `RAISE` more where the
// model has an "&" and u is a place. Such a number is no place yet, but is kept where places are.
pub fn kept(rows: &[u8; ROWS], e: ElementNo, u: Place) -> Place
    requires { (e.0 ≤ element_limit) × (u.0 ≤ GRPGTCNT) }
    ensures { (result.0 ≡ get_or rows.now (row_at e.0 u.0 + REQUIRED) 0) × (result.0 ≤ 255) }
{
    Place(numbers::wide(rows[row_search::row(e, u) + REQUIRED]))
}

// The required place that the row of the element e after the place u has, or 0.
pub fn required(rows: &[u8; ROWS], e: ElementNo, u: Place) -> Place
    requires { (e.0 ≤ element_limit) × (u.0 ≤ GRPGTCNT) }
    ensures { result.0 ≡ required_at rows.now e.0 u.0 }
{
    let p = numbers::wide(rows[row_search::row(e, u) + REQUIRED]);
    if GRPGTCNT < p {
        return Place(0);
    }
    Place(p)
}

// Whether the start tag of the element e may be omitted. Of an element that is not declared, or where the
// tables are no type's, it is not decided.
fn start_omitted(facts: &[u8; FACTS], e: ElementNo) -> bool
    requires { e.0 ≤ element_limit }
    ensures { (s : List ℕ) (es : List Element) (raised : ℕ → Bool) → Facts s es raised facts.now →
        Declares es (decisions.start e.0) → result ≡ start_o es e.0 }
{
    facts[e.0 * FACT + START_OMITTED] == 1
}

// Whether the end tag of the element e may be omitted. Of an element that is not declared, or where the
// tables are no type's, it is not decided.
pub fn end_omitted(facts: &[u8; FACTS], e: ElementNo) -> bool
    requires { e.0 ≤ element_limit }
    ensures { (s : List ℕ) (es : List Element) (raised : ℕ → Bool) → Facts s es raised facts.now →
        Declares es (decisions.start e.0) → result ≡ end_o es e.0 }
{
    facts[e.0 * FACT + END_OMITTED] == 1
}

// Whether the content of the element e is a model. Of an element that is not declared, or where the tables
// are no type's, it is not decided.
pub fn has_model(facts: &[u8; FACTS], e: ElementNo) -> bool
    requires { e.0 ≤ element_limit }
    ensures { (s : List ℕ) (es : List Element) (raised : ℕ → Bool) → Facts s es raised facts.now →
        Declares es (decisions.start e.0) →
        result ≡ has_model (content_of es e.0) }
{
    facts[e.0 * FACT + HAS_MODEL] == 1
}

// The place of the name x that may come next in the element e after the place u at the level, or 0. Of a name
// that is not declared, or where the bits are not those of the places taken in e, it is not decided, but that
// it is at most 96.
pub fn fitting(
    t: TypeTables,
    begun: &[u32; BEGUN],
    level: usize,
    e: ElementNo,
    u: Place,
    x: ElementNo,
) -> Place
    requires { (level ≤ TAGLVL) × (e.0 ≤ element_limit) × (u.0 ≤ GRPGTCNT) × (x.0 ≤ element_limit) }
    ensures by_index { (s : List ℕ) (es : List Element) → Tables s es t.entry.rows.now t.entry.places.now
        t.entry.facts.now t.entry.members.now →
        (o : rules.Open) → Entered es t.entry.members.now begun.now level e.0 u.0 o →
        (k : Token) → name_number k ≡ x.0 → Declares es k → result.0 ≡ (decided s es).fits e.0 o.taken k }
    ensures result_bound { result.0 ≤ GRPGTCNT }
{
    let name = x.0;
    let p = Place(numbers::wide(t.facts[e.0 * FACT + name]));
    if GRPGTCNT < p.0 {
        return row_search::largest_among(t.rows, t.places, t.members, begun, level, e, u, p);
    }
    row_search::largest(t.rows, t.places, e, u, p)
}

// Whether data may come next in the element e after the place u at the level. Where the tables are no type's,
// or the bits are not those of the places taken in e, it is not decided.
pub fn takes_data(t: TypeTables, begun: &[u32; BEGUN], level: usize, e: ElementNo, u: Place) -> bool
    requires { (level ≤ TAGLVL) × (e.0 ≤ element_limit) × (u.0 ≤ GRPGTCNT) }
    ensures { (s : List ℕ) (es : List Element) → Tables s es t.entry.rows.now t.entry.places.now
        t.entry.facts.now t.entry.members.now →
        (o : rules.Open) → Entered es t.entry.members.now begun.now level e.0 u.0 o →
        result ≡ leb 1 ((decided s es).fits e.0 o.taken decisions.pcdata) }
{
    let p = Place(numbers::wide(t.facts[e.0 * FACT]));
    if GRPGTCNT < p.0 {
        let q = row_search::largest_among(t.rows, t.places, t.members, begun, level, e, u, p);
        return q.0 != 0;
    }
    let q = row_search::largest(t.rows, t.places, e, u, p);
    q.0 != 0
}

// The place that one of the facts is, which is higher by `RAISE` where the model has an "&"; 0 where it is
// none.
fn lowered(p: Place) -> Place
    ensures { Lowered p.0 result.0 }
{
    if p.0 <= GRPGTCNT {
        return p;
    }
    if p.0 < RAISE {
        return Place(0);
    }
    if GRPGTCNT < p.0 - RAISE {
        return Place(0);
    }
    Place(p.0 - RAISE)
}

// The place of the name x that may come next at the start of the element e, or 0. Nothing has begun there, so
// the row decides. Where e or the name is not declared, or the tables are no type's, it is not decided, but
// that it is at most 96.
pub fn fitting_first(t: TypeTables, e: ElementNo, x: ElementNo) -> Place
    requires { (e.0 ≤ element_limit) × (x.0 ≤ element_limit) }
    ensures by_index { (s : List ℕ) (es : List Element) (M : List ℕ) →
        Tables s es t.entry.rows.now t.entry.places.now t.entry.facts.now M → e.0 ≤ length es →
        (k : Token) → name_number k ≡ x.0 → Declares es k → result.0 ≡ (decided s es).fits e.0 [] k }
    ensures result_bound { result.0 ≤ GRPGTCNT }
{
    let name = x.0;
    let p = Place(numbers::wide(t.facts[e.0 * FACT + name]));
    let none = Place(0);
    row_search::largest(t.rows, t.places, e, none, lowered(p))
}

// The element whose start is to be inferred in the element e where the place p is required, or 0. Where
// another place is required, or none, it is not decided, but that it is at most 64.
pub fn startable(t: TypeTables, e: ElementNo, p: Place) -> ElementNo
    requires { e.0 ≤ element_limit }
    ensures by_index { (s : List ℕ) (es : List Element) (rows M : List ℕ) →
        Tables s es rows t.entry.places.now t.entry.facts.now M →
        (o : rules.Open) (begun : List ℕ) (level u : ℕ) → Entered es M begun level e.0 u o →
        p.0 ≡ rules.required_place s es (decided s es) o →
        result.0 ≡ rules.inferable s es (decided s es) o }
    ensures result_le_element_limit { result.0 ≤ element_limit }
{
    let none = ElementNo(0);
    if p.0 == 0 {
        return none;
    }
    if GRPGTCNT < p.0 {
        return none;
    }
    // What the place names is an element, `PCDATA`, or 0 if that is not declared.
    let k = ElementNo(numbers::wide(t.places[(e.0 * POSITIONS + p.0) * LINK]));
    if k.0 == 0 {
        return none;
    }
    if ELEMENTS < k.0 {
        return none;
    }
    if !start_omitted(t.facts, k) {
        return none;
    }
    if !has_model(t.facts, k) {
        return none;
    }
    k
}

// The element whose start is to be inferred at the start of the element e, or 0.
pub fn inferable(t: TypeTables, e: ElementNo) -> ElementNo
    requires { e.0 ≤ element_limit }
    ensures by_index { (s : List ℕ) (es : List Element) (M : List ℕ) →
        Tables s es t.entry.rows.now t.entry.places.now t.entry.facts.now M → e.0 ≤ length es →
        result.0 ≡ rules.inferable s es (decided s es) (fresh e.0) }
    ensures result_le_element_limit { result.0 ≤ element_limit }
{
    let none = Place(0);
    let q = required(t.rows, e, none);
    startable(t, e, q)
}
