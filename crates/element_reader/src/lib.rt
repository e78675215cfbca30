// One element declaration: its name, omitted tag minimization and content.
#![tactic(auto)]

ghost use Rattle.std.specs.Prelude.{◌≡◌, List, ◌≤◌, length};
ghost use Rattle.rules.specs.TypeFile.{close, rest, element};
ghost use Rattle.rules.specs.TypeFile as rules;
ghost use Rattle.rules.specs.Bytes.{element_limit, type_limit};
ghost use Rattle.text.specs.Refusal.{reached};
ghost use Rattle.element_names.specs.Names.{Recorded};
ghost use Rattle.element_head.specs.Heads.{head_in};
ghost use Rattle.element_reader.specs.Keeps.{MeetsElement, ElementIn};

use element_content::Model;
use element_head::Head;
use element_names::Elements;
use layout::{MODEL, NAMES, RECORDS};
use text::{Reading, Refusal};

// A whole declaration: where the name stands, whether the start tag and the end tag may be omitted, the
// model of the content, or none for EMPTY, and where reading goes on.
#[derive(Clone, Copy)]
pub struct Element {
    pub offset: usize,
    pub size: usize,
    pub start: bool,
    pub end: bool,
    pub model: Option<Model>,
    pub at: usize,
}

// The end of the declaration.
fn close_at(s: &[u8], i: usize) -> Reading<usize>
    requires { i ≤ length s.now }
    ensures { reached result ≡ close s.now i }
{
    let b = text::byte(s, i);
    if b == b'>' {
        return Ok(i + 1);
    }
    if b == b'-' || b == b'+' {
        if text::byte(s, i + 1) == b'(' {
            return Err(Refusal::LeftOut.at(i));
        }
    }
    Err(gaps::unfit_at(s, i))
}

// What follows the two words: the content and the end, of an element whose head is h.
fn rest_at(
    long: usize,
    s: &[u8],
    h: Head,
    names: &mut [u32; NAMES],
    table: &mut [u8; MODEL],
) -> Reading<Element>
    requires { (h.at ≤ length s.now) × (length s.now ≤ type_limit) × (h.offset ≤ length s.now)
        × (h.size ≤ length s.now) }
    ensures { (es : List rules.Element) → MeetsElement (length s.now) h.at names.new table.new es result
        (rest long s.now es (head_in h)) }
{
    let from = h.at;
    let i = gaps::gap_end(s, from)?;
    let b = element_content::body_at(long, s, from, i, names, table)?;
    let j = gaps::gap_end(s, b.at)?;
    let k = close_at(s, j)?;
    Ok(Element {
        offset: h.offset,
        size: h.size,
        start: h.start,
        end: h.end,
        model: b.model,
        at: k,
    })
}

// An element declaration whose keyword ends at `at`, after those recorded in `elements`. Where it is
// refused or the content is EMPTY, what `names` and `table` hold is not decided; nor is what they hold
// behind the places of a model. Where `elements` holds no records of elements, all that is decided is that
// one more has room.
pub fn element_at(
    long: usize,
    s: &[u8],
    at: usize,
    elements: &[u32; RECORDS],
    count: usize,
    names: &mut [u32; NAMES],
    table: &mut [u8; MODEL],
) -> Reading<Element>
    requires { (at ≤ length s.now) × (length s.now ≤ type_limit) × (count ≤ element_limit) }
    ensures meets_element { (es : List rules.Element) → length es ≡ count → Recorded elements.now es →
        MeetsElement (length s.now) at names.new table.new es result (element long s.now at es) }
    ensures element_in { ElementIn count result }
{
    let d = Elements {
        records: elements,
        count: count,
    };
    let h = element_head::head_at(long, s, at, d)?;
    rest_at(long, s, h, names, table)
}
