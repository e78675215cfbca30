// The attributes that a start tag specifies, checked against the list of its element: each is declared and
// specified once, its value fits, and no required one is missing.
//
// `lists` is that of the crate list_table, `given` has the attributes of a tag as they are read (crate
// tag_attributes). `marks` has for each attribute of the element the offset and length of its specified value
// in the document; 0 if it is not specified.
// Kept: 0 for none (fixed: no heap, fixed memory: callers lend numbers of 16 bits, and attribute_events reads
// them).
#![tactic(auto)]

ghost use Rattle.std.specs.Prelude.{◌≡◌, true, false, List, ℕ, ◌+◌, ◌*◌, ◌-◌, ◌≤◌, ◌<◌, length, get_or};
ghost use Rattle.rules.specs.Bytes.{ATTCNT, document_limit, element_limit, type_limit};
ghost use Rattle.rules.specs.Reading.{refused, got};
ghost use Rattle.rules.specs.Attributes.{Attribute};
ghost use Rattle.rules.specs.Document as rules;
ghost use Rattle.rules.specs.Given.{attributed, none_missing};
ghost use Rattle.layout.specs.Sizes.{LIST, MARKS};
ghost use Rattle.list_table.specs.Lists.{ListAt};
ghost use Rattle.tag_attributes.specs.Given.{written_as, kept_of, KeptAs, WrittenIn, GivenIn};
ghost use Rattle.attribute_marks.specs.Differ.{NamesDiffer};
ghost use Rattle.attribute_marks.specs.Marks.{Marked, Attributed};
ghost use Rattle.attribute_marks.specs.Each.{Marks, Given, GivenFits, CheckFits};

use layout::{ElementNo, GIVEN, MARKS};
use tag_attributes::Written;
use text::{Reading, Refusal};

// None of the first n attributes is written.
fn clear(marks: &mut [u16; MARKS], n: usize)
    requires { n ≤ ATTCNT }
    ensures { (k : ℕ) → k < n → get_or marks.new (2 * k) 0 ≡ 0 }
{
    for k in 0..n {
        marks[2 * k] = 0;
    }
}

// An attribute of the element e as a tag gives it: 20 if it is not declared or marked already, 22 if its
// value does not fit.
fn mark(
    long: usize,
    s: &[u8],
    lists: &[u16],
    d: &[u8],
    e: ElementNo,
    w: Written,
    marks: &mut [u16; MARKS],
) -> Result<(), Refusal>
    requires { (1 ≤ e.0) × (e.0 ≤ element_limit) × (length s.now ≤ type_limit) × (length d.now ≤ document_limit) × WrittenIn (length d.now) w }
    ensures { (xs : List Attribute) (before : List rules.Written) → ListAt long s.now lists.now (LIST * (e.0 - 1)) xs → NamesDiffer s.now xs → Marked s.now xs d.now before marks.old →
        Marks long s.now xs d.now before (written_as w) marks.new result }
{
    let Some(a) = list_table::find(s, lists, e, d, w.name, w.size) else {
        return Err(Refusal::Attribute);
    };
    let k = a.0 - 1;
    if marks[2 * k] != 0 {
        return Err(Refusal::Attribute);
    }
    let from = w.quote + 1;
    marks[2 * k] = from as u16;
    marks[2 * k + 1] = w.width as u16;
    let r = list_table::attribute(lists, e, k);
    // What is written stands in the document, so that no other text is lent.
    let v = attribute_values::value(d, d, true, from, w.width);
    if attribute_values::fits(long, s, r.value, v) {
        return Ok(());
    }
    Err(Refusal::Value)
}

// The n attributes that a tag gives: the first 20, else the first 22, else they are marked. A 20 comes before
// each 22, so that the first misfit is only remembered: where its literal begins. Where the table has no list
// of the element, or one in which two names are the same, neither which of these it is nor what `marks` holds
// is decided, but that a refusal is 20 or 22, at most at the document's end.
fn marked(
    long: usize,
    s: &[u8],
    lists: &[u16],
    d: &[u8],
    e: ElementNo,
    given: &[u16; GIVEN],
    n: usize,
    marks: &mut [u16; MARKS],
) -> Reading<()>
    requires { (1 ≤ e.0) × (e.0 ≤ element_limit) × (n ≤ ATTCNT + 1) × GivenIn (length d.now) given.now n × (length s.now ≤ type_limit) × (length d.now ≤ document_limit) }
    ensures by_list { (xs : List Attribute) → ListAt long s.now lists.now (LIST * (e.0 - 1)) xs →
        NamesDiffer s.now xs → ((k : ℕ) → k < length xs → get_or marks.old (2 * k) 0 ≡ 0) →
        Given long s.now xs d.now (kept_of given.now n) marks.new result }
    ensures fits { GivenFits (length d.now) result }
{
    let mut misfit = None;
    for k in 0..n {
        let w = tag_attributes::kept(given, k);
        if let Err(r) = mark(long, s, lists, d, e, w, marks) {
            match r {
                Refusal::Attribute => return Err(r.at(w.name)),
                _ => misfit = misfit.or(Some(w.quote)),
            }
        }
    }
    match misfit {
        Some(at) => Err(Refusal::Value.at(at)),
        None => Ok(()),
    }
}

// Whether an attribute of the element e is required and not marked.
fn is_missing(lists: &[u16], e: ElementNo, n: usize, marks: &[u16; MARKS]) -> bool
    requires { (1 ≤ e.0) × (e.0 ≤ element_limit) × (n ≤ ATTCNT) }
    ensures { (long : ℕ) (s d : List ℕ) (xs : List Attribute) (ws : List rules.Written) → ListAt long s lists.now (LIST * (e.0 - 1)) xs → n ≡ length xs → Marked s xs d ws marks.now →
        (at : ℕ) → none_missing s xs d at ws ≡ elim result [ true ↦ refused 21 at | false ↦ got tt ] }
{
    for k in 0..n {
        if marks[2 * k] == 0 && list_table::attribute(lists, e, k).is_required() {
            return true;
        }
    }
    false
}

// The start tag at `at`, which was read, of the element e, which gives g attributes, of which so many are
// kept: 20, 22 or 21, else they are marked. Where it is refused, what `marks` holds is not decided. Where the
// table has no list of the element, or one in which two names are the same, neither the answer nor what
// `marks` holds is decided, but that a refusal is 21 at the tag, or 20 or 22, at most at the document's end.
pub fn check(
    long: usize,
    s: &[u8],
    lists: &[u16],
    d: &[u8],
    e: ElementNo,
    given: &[u16; GIVEN],
    g: usize,
    at: usize,
    marks: &mut [u16; MARKS],
) -> Reading<()>
    requires { (1 ≤ e.0) × (e.0 ≤ element_limit) × (g ≤ ATTCNT + 1) × GivenIn (length d.now) given.now g × (length s.now ≤ type_limit) × (length d.now ≤ document_limit) }
    ensures by_list { (xs : List Attribute) (ws : List rules.Written) →
        ListAt long s.now lists.now (LIST * (e.0 - 1)) xs → NamesDiffer s.now xs → KeptAs given.now g ws →
        Attributed s.now xs d.now ws marks.new result (attributed long s.now xs d.now at ws) }
    ensures fits { CheckFits (length d.now) at result }
{
    let n = list_table::count(lists, e);
    clear(marks, n);
    marked(long, s, lists, d, e, given, g, marks)?;
    if is_missing(lists, e, n, marks) {
        return Err(Refusal::AttributeMissing.at(at));
    }
    Ok(())
}
