// The content of an element: EMPTY, or a model group with its names and its table.
#![tactic(auto)]

ghost use Rattle.std.specs.Prelude.{◌≡◌, ◌≤◌, ◌<◌, length};
ghost use Rattle.rules.specs.TypeFile.{content_word, content_model, content};
ghost use Rattle.rules.specs.Bytes.{type_limit};
ghost use Rattle.element_content.specs.Kept.{place, wrong_word, MeetsBody};

use connectors::Counts;
use layout::{GRPLVL, MODEL, NAMES};
use text::{Fault, Reading, Refusal};

// What is kept of a model: its content tokens and places, how many numbers its code has, whether an "&"
// stands in it, and where the first "&" stands that is refused.
#[derive(Clone, Copy)]
pub struct Model {
    pub tokens: usize,
    pub places: usize,
    pub code: usize,
    pub and: bool,
    pub repeated: Option<usize>,
}

// The content: a model, or none for EMPTY; and where reading goes on.
#[derive(Drop)]
pub struct Body {
    pub model: Option<Model>,
    pub at: usize,
}

// A word from i to e that is no content: at its first byte, or where the input ends within EMPTY.
fn wrong_word(s: &[u8], from: usize, i: usize, e: usize) -> Fault
    requires { (i ≤ e) × (e ≤ length s.now) × (length s.now ≤ type_limit) }
    ensures { result ≡ record { number = 4; at = wrong_word s.now from i e } }
{
    if i <= from {
        return Refusal::Malformed.at(i);
    }
    if words::is_cut(s, i, e, b"EMPTY") {
        return Refusal::Malformed.at(s.len());
    }
    Refusal::Malformed.at(i)
}

// A word as content.
fn body_word(
    long: usize,
    s: &[u8],
    from: usize,
    i: usize,
    names: &[u32; NAMES],
    table: &[u8; MODEL],
) -> Reading<Body>
    requires { (i ≤ length s.now) × (length s.now ≤ type_limit) }
    ensures { MeetsBody (length s.now) names.now table.now result (content_word long s.now from i) }
{
    let e = text::name_end(s, i);
    if long < e - i {
        return Err(Refusal::NameTooLong.at(i));
    }
    if from < i && words::is_word(s, i, e, b"EMPTY") {
        return Ok(Body { model: None, at: e });
    }
    if words::is_word(s, i, e, b"ANY")
        || words::is_word(s, i, e, b"CDATA")
        || words::is_word(s, i, e, b"RCDATA")
    {
        return Err(Refusal::LeftOut.at(i));
    }
    Err(wrong_word(s, from, i, e))
}

// The position of an "&", of which 0 is none.
fn place(at: usize) -> Option<usize>
    ensures { result ≡ place at }
{
    match at {
        0 => None,
        _ => Some(at),
    }
}

// A model group as content, with its names and its table.
// Kept: (plainer) `names` and `table` are lent one by one, here and in the crates above: what is called with
// them writes one of the two (`model_names` the names, `model_table` and `model_code` the table), and the
// contracts speak of both lists. A struct of both would be taken apart at each call.
fn body_model(
    long: usize,
    s: &[u8],
    i: usize,
    names: &mut [u32; NAMES],
    table: &mut [u8; MODEL],
) -> Reading<Body>
    requires { (i < length s.now) × (length s.now ≤ type_limit) }
    ensures { MeetsBody (length s.now) names.new table.new result (content_model long s.now i) }
{
    model_table::clear(table);
    let none = Counts {
        places: 0,
        tokens: 0,
        code: 0,
    };
    let g = group_reader::group_at(long, s, i, GRPLVL, none, names, table)?;
    let m = connectors::with_occurrence(s, table, 1, g);
    let part = m.part;
    model_table::finish(table, part);
    Ok(Body {
        model: Some(Model {
            tokens: m.tokens,
            places: m.places,
            code: usize::from(m.code),
            and: m.and != 0,
            repeated: place(usize::from(m.repeated)),
        }),
        at: m.at,
    })
}

// The content at i, where the parameter before ended at `from`. Where it is refused or EMPTY, what `names`
// and `table` hold is not decided, nor is what they hold behind the places of a model.
pub fn body_at(
    long: usize,
    s: &[u8],
    from: usize,
    i: usize,
    names: &mut [u32; NAMES],
    table: &mut [u8; MODEL],
) -> Reading<Body>
    requires { (i ≤ length s.now) × (length s.now ≤ type_limit) }
    ensures { MeetsBody (length s.now) names.new table.new result (content long s.now from i) }
{
    let b = text::byte(s, i);
    if b == b'(' {
        return body_model(long, s, i, names, table);
    }
    if text::is_letter(b) {
        return body_word(long, s, from, i, names, table);
    }
    Err(gaps::unfit_at(s, i))
}
