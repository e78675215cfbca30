// The tables of a type, filled from its declarations, which are read again.
//
// The layout is that of the crate type_tables.
#![tactic(auto)]

ghost use Rattle.std.specs.Prelude.{◌≡◌, List, ℕ, ◌+◌, ◌-◌, ◌*◌, ◌≤◌, ◌<◌, length, replicate, true};
ghost use Rattle.rules.specs.Settings.{settings};
ghost use Rattle.rules.specs.TypeFile.{Element};
ghost use Rattle.rules.specs.Judge.{Accepts};
ghost use Rattle.rules.specs.Bytes.{GRPGTCNT, element_limit};
ghost use Rattle.layout.specs.Sizes.{ROWS, PLACES, FACTS, CONTENTS};
ghost use Rattle.model_names.specs.Places.{place_in, places_of};
ghost use Rattle.element_reader.specs.Keeps.{Recorded};
ghost use Rattle.element_index.specs.Indexed.{Judged, Indexed};
ghost use Rattle.list_table.specs.Lists.{Lists};
ghost use Rattle.type_tables.specs.Tables.{raised_place, Tables};
ghost use Rattle.table_fill.specs.Places.{slot_of, PlacePut, PlacesPut};
ghost use Rattle.table_fill.specs.Told.{NoMembers};
ghost use Rattle.table_fill.specs.Filled.{LargestPut, Filled};
ghost use Rattle.table_fill.specs.Kinds.{document_rows};
ghost use Rattle.table_fill.specs.Names.{name_of, IsName, PlacesDue};
ghost use Rattle.table_fill.specs.Own.{elements_of};
ghost use Rattle.table_fill.specs.Elements.{Flags, StartFact, FactsPut, ElementDue};

use layout::{
    CONTENTS, END_OMITTED, ElementNo, FACT, FACTS, HAS_MODEL, INDEX, LINK, MODEL, NAMES, PCDATA,
    PLACES, POSITIONS, Place, RAISE, RECORD, RECORDS, REQUIRED, ROW, ROWS, START_OMITTED,
};

// What a place is raised by in a model with "&", as a byte of the tables.
const RAISED: u8 = RAISE as u8;

// A type as it is read again: how long its names may be, its file, the records of its elements with the index
// of their names, and their lists.
#[derive(Clone, Copy)]
struct Source<'a> {
    long: usize,
    s: &'a [u8],
    elements: &'a [u32; RECORDS],
    index: &'a [u8; INDEX],
    lists: &'a [u16],
}

// By which number a place that names v is filed: that of the element, 0 for `#PCDATA`.
fn slot(v: ElementNo) -> usize
    ensures { result ≡ slot_of v.0 }
{
    if v.0 == PCDATA { 0 } else { v.0 }
}

// The place p of the element e names v: it comes before those of that name that are there.
fn put_place(
    places: &mut [u8; PLACES],
    facts: &mut [u8; FACTS],
    e: ElementNo,
    p: Place,
    v: ElementNo,
)
    requires { (e.0 ≤ element_limit) × (p.0 ≤ GRPGTCNT) × (v.0 ≤ 255) × (slot_of v.0 ≤ element_limit) }
    ensures { PlacePut e.0 p.0 v.0 places.old facts.old places.new facts.new }
{
    let q = (e.0 * POSITIONS + p.0) * LINK;
    places[q] = v.0 as u8;
    if v.0 == 0 {
        return;
    }
    let f = e.0 * FACT + slot(v);
    let earlier = facts[f];
    places[q + 1] = earlier;
    facts[f] = p.0 as u8;
}

// The document: its one place is the document element, required at the start.
fn put_document(rows: &mut [u8; ROWS], places: &mut [u8; PLACES], facts: &mut [u8; FACTS])
    ensures { (rows.new ≡ document_rows rows.old)
        × PlacePut 0 1 1 places.old facts.old places.new facts.new }
{
    rows[0] = 2;
    rows[REQUIRED] = 1;
    rows[ROW] = 1;
    let document = ElementNo(0);
    let first = Place(1);
    let element = ElementNo(1);
    put_place(places, facts, document, first, element);
}

// What the place p of the model whose names are in `names` names: an element, `PCDATA`, 0 if that is not declared.
fn name(t: Source, names: &[u32; NAMES], p: Place) -> ElementNo
    requires { (1 ≤ p.0) × (p.0 ≤ GRPGTCNT) × IsName t.s.now (place_in names.now (p.0 - 1)) }
    ensures result_value { (es : List Element) → Indexed t.entry.s.now es t.entry.elements.now
        t.entry.index.now →
        result.0 ≡ name_of t.entry.s.now es (place_in names.now (p.0 - 1)) }
    ensures result_bound { (result.0 ≤ 255) × (slot_of result.0 ≤ element_limit) }
{
    let size = numbers::widened(names[2 * (p.0 - 1) + 1]);
    if size == 0 {
        return ElementNo(PCDATA);
    }
    let at = model_names::place_at(names, p.0);
    element_index::find(t.s, t.elements, t.index, t.s, at, size).element
}

// The places of the element e, whose model has `count` places with their names in `names`.
fn put_places(
    t: Source,
    places: &mut [u8; PLACES],
    facts: &mut [u8; FACTS],
    e: ElementNo,
    names: &[u32; NAMES],
    count: usize,
)
    requires { PlacesDue t.s.now names.now places.old facts.old e.0 count }
    ensures { (es : List Element) → Indexed t.entry.s.now es t.entry.elements.now t.entry.index.now →
        PlacesPut t.entry.s.now es (places_of names.now count) e.0
        places.old facts.old places.new facts.new (count + 1) }
{
    for i in 1..count + 1 {
        let p = Place(i);
        put_place(places, facts, e, p, name(t, names, p));
    }
}

// Whether the start of the element e may be inferred, by its record and its list: "O", and none of its attributes is required.
fn start_fact(t: Source, e: ElementNo) -> u8
    requires { (1 ≤ e.0) × (e.0 ≤ element_limit) × Flags t.elements.now e.0 }
    ensures { StartFact t.entry.elements.now t.entry.lists.now e.0 result }
{
    if list_table::needs_tag(t.lists, e) {
        return 0;
    }
    t.elements[RECORD * (e.0 - 1) + 2] as u8
}

// Whether the start of the element e may be inferred, whether its end may be omitted, and its content.
fn put_facts(t: Source, facts: &mut [u8; FACTS], e: ElementNo)
    requires { (1 ≤ e.0) × (e.0 ≤ element_limit) × Flags t.elements.now e.0 }
    ensures { FactsPut t.entry.elements.now t.entry.lists.now e.0 facts.old facts.new }
{
    let k = RECORD * (e.0 - 1);
    facts[e.0 * FACT + START_OMITTED] = start_fact(t, e);
    facts[e.0 * FACT + END_OMITTED] = t.elements[k + 3] as u8;
    facts[e.0 * FACT + HAS_MODEL] = t.elements[k + 4] as u8;
}

// The largest place of a name as it is kept where the model has an "&": higher by `RAISE`, if there is one.
fn raised(p: u8) -> u8
    ensures { p ≤ GRPGTCNT → result ≡ raised_place true p }
{
    if p == 0 {
        return 0;
    }
    if RAISED <= p {
        return p;
    }
    p + RAISED
}

// The largest places of the element e are kept higher: its model has an "&".
fn raise_facts(facts: &mut [u8; FACTS], e: ElementNo)
    requires { e.0 ≤ element_limit }
    ensures { LargestPut true e.0 facts.old facts.new CONTENTS }
{
    let f = e.0 * FACT;
    for x in 0..CONTENTS {
        facts[f + x] = raised(facts[f + x]);
    }
}

// The element e: its declaration is read again from its name on, which fills `names` and `table`.
// Kept: the four tables one by one: (plainer) a struct of `&mut` would need in each contract here that each
// field stays the same reference.
fn put_element(
    t: Source,
    rows: &mut [u8; ROWS],
    places: &mut [u8; PLACES],
    facts: &mut [u8; FACTS],
    members: &mut [u8],
    e: ElementNo,
    names: &mut [u32; NAMES],
    table: &mut [u8; MODEL],
)
    requires { ElementDue t.long t.s.now (elements_of t.long t.s.now) t.elements.now t.lists.now t.index.now
        rows.old places.old facts.old members.old e.0 }
    ensures { Filled t.entry.s.now (elements_of t.entry.long t.entry.s.now) rows.new places.new facts.new
        members.new (e.0 + 1) }
{
    put_facts(t, facts, e);
    let at = element_index::offset(t.elements, e);
    let r = element_reader::element_at(t.long, t.s, at, t.elements, e.0 - 1, names, table);
    let Ok(d) = r else {
        return;
    };
    let Some(m) = d.model else {
        let none = Place(0);
        rows[row_search::row(e, none)] = 1;
        return;
    };
    put_places(t, places, facts, e, names, m.places);
    if !m.and {
        model_rows::put_rows(rows, e, table, m.places, 0);
        return;
    }
    model_rows::put_rows(rows, e, table, m.places, RAISED);
    raise_facts(facts, e);
    member_sets::fill(members, e, table, m.code);
}

// Fills the tables, which are all 0, from an accepted type file whose elements are recorded in `elements`.
// Where no "&" stands in it there need be no table of members. What they then hold for numbers past the
// type's elements and past a model's places is not decided: the state never stands there.
// Kept: ten parameters: (plainer) as with `put_element`, and those that are read come from callers one by
// one.
pub fn fill(
    long: usize,
    s: &[u8],
    elements: &[u32; RECORDS],
    lists: &[u16],
    count: usize,
    index: &[u8; INDEX],
    rows: &mut [u8; ROWS],
    places: &mut [u8; PLACES],
    facts: &mut [u8; FACTS],
    members: &mut [u8],
)
    requires by_index { (edition : ℕ) × Judged (settings long edition) s.now elements.now count }
    requires by_index_2 { (edition : ℕ) × (es : List Element) × Accepts (settings long edition) s.now es × Indexed s.now es elements.now index.now × Lists long s.now es lists.now }
    requires rows_value { (rows.old ≡ replicate ROWS 0) × (places.old ≡ replicate PLACES 0) × (facts.old ≡ replicate FACTS 0) }
    requires no_members { NoMembers s.now members.old }
    ensures { (edition : ℕ) (es : List Element) → Accepts (settings long edition) s.now es → length es ≡ count → Recorded elements.now es →
        Tables s.now es rows.new places.new facts.new members.new }
{
    let t = Source {
        long,
        s,
        elements,
        index,
        lists,
    };
    let mut names = [0u32; NAMES];
    let mut table = [0u8; MODEL];
    put_document(rows, places, facts);
    for k in 1..count + 1 {
        let e = ElementNo(k);
        put_element(t, rows, places, facts, members, e, &mut names, &mut table);
    }
}
