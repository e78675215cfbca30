// The elements of a type file as they are read: each is recorded in the table of elements, and the first
// pair at fault is kept.
#![tactic(auto)]

ghost use Rattle.std.specs.Prelude.{◌≡◌, List, ◌++◌, ◌+◌, ◌*◌, ◌≤◌, ◌<◌, length, take};
ghost use Rattle.std.specs.Option.{ForSome};
ghost use Rattle.rules.specs.TypeFile as rules;
ghost use Rattle.rules.specs.Bytes.{GRPGTCNT, element_limit, type_limit};
ghost use Rattle.rules.specs.Judge.{record_width};
ghost use Rattle.layout.specs.Sizes.{RECORDS};
ghost use Rattle.element_content.specs.Kept.{repeated_of, KeepsContent};
ghost use Rattle.element_records.specs.Progress.{numbers_of, tokens_of, Pending, PendingWith};
ghost use Rattle.element_records.specs.Progress.{KeepsProgress, InProgress, MeetsStep};

use element_content::Model;
use element_reader::Element;
use layout::{MODEL, NAMES, RECORD, RECORDS};
use text::Reading;

// A pair at fault: where its second place stands and the two places.
#[derive(Clone, Copy)]
pub struct Clash {
    pub at: u32,
    pub first: u32,
    pub second: u32,
}

// How far the type file was read, how many elements it has so far, the first pair at fault, and where the
// first "&" stands that is refused.
#[derive(Drop)]
pub struct Progress {
    pub at: usize,
    pub count: usize,
    pub clash: Option<Clash>,
    pub repeated: Option<usize>,
}

// The table has as many numbers as its type says. Nothing is read of the copy, so no code is left of a call.
pub fn whole(elements: [u32; RECORDS])
    ensures { length elements ≡ RECORDS }
{}

// The record of the element that was declared after k others. Its content is 0 for EMPTY, or 1 and the
// content tokens of its model.
fn put_record(elements: &mut [u32; RECORDS], k: usize, e: Element)
    requires { (k < element_limit) × (e.offset < 4294967296) × (e.size < 4294967296)
        × (tokens_of e.model < 4294967296) }
    ensures { take (record_width * (k + 1)) elements.new
        ≡ take (record_width * k) elements.old ++ numbers_of e }
{
    let (kind, tokens) = match e.model {
        Some(m) => (1, m.tokens),
        None => (0, 0),
    };
    elements[RECORD * k] = e.offset as u32;
    elements[RECORD * k + 1] = e.size as u32;
    elements[RECORD * k + 2] = e.start as u32;
    elements[RECORD * k + 3] = e.end as u32;
    elements[RECORD * k + 4] = kind;
    elements[RECORD * k + 5] = tokens as u32;
}

// The first pair at fault so far, where the element read last has the model in `names` and `table`, or is
// EMPTY. Where an "&" of the model is refused, it is not decided.
fn clash_with(
    s: &[u8],
    c: Option<Clash>,
    model: Option<Model>,
    names: &[u32; NAMES],
    table: &[u8; MODEL],
) -> Option<Clash>
    requires { ForSome model (λ m. m.places ≤ GRPGTCNT) }
    ensures { (es : List rules.Element) (x : rules.Content) → Pending s.now c es →
        KeepsContent names.now table.now model x → repeated_of model ≡ None → PendingWith s.now result es x }
{
    if c.is_some() {
        return c;
    }
    let m = model?;
    if m.repeated.is_some() {
        return None;
    }
    let pair = model_pairs::first_pair(s, names, table, m.places, m.code, m.and)?;
    Some(Clash {
        at: model_names::place_at(names, pair.second) as u32,
        first: pair.first as u32,
        second: pair.second as u32,
    })
}

// Where the first "&" of a content stands that is refused.
fn repeated_in(model: Option<Model>) -> Option<usize>
    ensures { result ≡ repeated_of model }
{
    model?.repeated
}

// An element declaration whose keyword ends at `at`, after those that p counts. What stands in `elements`
// behind the records, or where it is refused in all of it, is not decided, nor what `names` and `table`
// hold after any answer.
pub fn element_at(
    long: usize,
    s: &[u8],
    at: usize,
    p: Progress,
    elements: &mut [u32; RECORDS],
    names: &mut [u32; NAMES],
    table: &mut [u8; MODEL],
) -> Reading<Progress>
    requires at_in_bounds { (at ≤ length s.now) × (length s.now ≤ type_limit) }
    requires in_progress { InProgress s.now elements.old p }
    ensures { (es : List rules.Element) → KeepsProgress s.now elements.old p es →
        MeetsStep s.now elements.new at result (rules.element long s.now at es) }
{
    let count = p.count;
    let e = element_reader::element_at(long, s, at, elements, count, names, table)?;
    put_record(elements, count, e);
    Ok(Progress {
        at: e.at,
        count: count + 1,
        clash: clash_with(s, p.clash, e.model, names, table),
        repeated: p.repeated.or(repeated_in(e.model)),
    })
}
