// What stands at a position of a document, names looked up: its bytes and the declared names decide that,
// and nothing that is open.
//
// `classes` is the table of delimiters, `given` that of tag_attributes, `marks` that of attribute_marks.
// Where the index and the lists are no type's, what is found is unspecified, but that its element is at most
// 64 and that it ends further on, within the document, unless it is refused.
#![tactic(auto)]

ghost use Rattle.std.specs.Prelude.{List, ◌+◌, ◌*◌, ◌-◌, ◌≤◌, ◌<◌, length};
ghost use Rattle.rules.specs.Settings.{most_name_length};
ghost use Rattle.rules.specs.Bytes.{ATTCNT, document_limit, element_limit, type_limit};
ghost use Rattle.rules.specs.TypeFile.{Element};
ghost use Rattle.rules.specs.Attributes.{Attribute};
ghost use Rattle.rules.specs.Document as document;
ghost use Rattle.rules.specs.Elements.{number_of};
ghost use Rattle.rules.specs.Given.{attributed};
ghost use Rattle.layout.specs.Sizes.{LIST};
ghost use Rattle.delimiters.specs.Classes.{Classes};
ghost use Rattle.tag_attributes.specs.Given.{KeptAs, GivenIn};
ghost use Rattle.element_index.specs.Indexed.{Indexed};
ghost use Rattle.list_table.specs.Lists.{ListAt, Lists};
ghost use Rattle.attribute_marks.specs.Differ.{NamesDiffer};
ghost use Rattle.attribute_marks.specs.Marks.{Attributed};
ghost use Rattle.pieces.specs.Finds.{Finds, Onward, Numbered, Ranged};

use document_text::Piece;
use layout::{ElementNo, GIVEN, INDEX, MARKS, RECORDS};
use tags::Tag;
use text::{Reading, Refusal};
use type_tables::TypeTables;

// What a document is read under: how long a name may be and the edition, the type file, the records of its
// elements and their index (crate element_index), the tables of the type, and its attribute lists (crate
// list_table).
#[derive(Clone, Copy)]
pub struct Type<'a> {
    pub long: usize,
    pub edition: usize,
    pub file: &'a [u8],
    pub elements: &'a [u32; RECORDS],
    pub index: &'a [u8; INDEX],
    pub tables: TypeTables<'a>,
    pub lists: &'a [u16],
}

// What stands at a position of the document, names looked up.
#[derive(Drop)]
pub enum Found {
    // It is the start tag of an element, up to here.
    Start(ElementNo, usize),
    // It is the end tag of an element, up to here.
    End(ElementNo, usize),
    // It is ignored whatever is open, up to here.
    Passed(usize),
    // It is a byte 9, 13 or 32: what is open decides whether it is data or ignored.
    Blank,
    // It is another byte that is data.
    Data,
}

// The element that the tag at `at` names.
fn tagged(t: Type, d: &[u8], g: Tag, at: usize) -> Reading<ElementNo>
    requires { (1 ≤ g.size) × (g.size ≤ most_name_length) × (g.name + g.size ≤ length d.now) }
    ensures numbered { (es : List Element) →
        Indexed t.entry.file.now es t.entry.elements.now t.entry.index.now →
        Numbered at result (number_of t.entry.file.now es d.now g.name g.size) }
    ensures ranged { Ranged result }
{
    let x = element_index::find(t.file, t.elements, t.index, d, g.name, g.size).element;
    if x.0 == 0 {
        return Err(Refusal::Undeclared.at(at));
    }
    Ok(x)
}

// What the start tag at `at`, of the element x, gives, of which n attributes are kept, held against the
// list of x: 20, 22 or 21, or they are marked. Where no element has a list and none is given there is
// nothing to hold.
fn held(
    t: Type,
    d: &[u8],
    x: ElementNo,
    given: &[u16; GIVEN],
    n: usize,
    at: usize,
    marks: &mut [u16; MARKS],
) -> Reading<()>
    requires { (1 ≤ x.0) × (x.0 ≤ element_limit) × (n ≤ ATTCNT + 1) ×
        GivenIn (length d.now) given.now n × (length t.file.now ≤ type_limit) ×
        (length d.now ≤ document_limit) }
    ensures { (xs : List Attribute) (ws : List document.Written) →
        ListAt t.entry.long t.entry.file.now t.entry.lists.now (LIST * (x.0 - 1)) xs →
        NamesDiffer t.entry.file.now xs → KeptAs given.now n ws →
        Attributed t.entry.file.now xs d.now ws marks.new result (attributed t.entry.long t.entry.file.now xs d.now at ws) }
{
    if n == 0 && t.lists.is_empty() {
        return Ok(());
    }
    attribute_marks::check(t.long, t.file, t.lists, d, x, given, n, at, marks)
}

// What stands at `at`, whatever is open. Where it is a start tag, `marks` has the attributes that it gives;
// else, and where it is refused, what `marks` holds is unspecified. What `given` holds then is unspecified in
// any case: it is room for what a tag gives.
pub fn found_at(
    t: Type,
    classes: &[u8; 256],
    d: &[u8],
    at: usize,
    given: &mut [u16; GIVEN],
    marks: &mut [u16; MARKS],
) -> Reading<Found>
    requires { Classes classes.now × (t.long ≤ most_name_length) × (at < length d.now) ×
        (length d.now ≤ document_limit) × (length t.file.now ≤ type_limit) }
    ensures onward { Onward (length d.now) at result }
    ensures finds { (es : List Element) → Indexed t.entry.file.now es t.entry.elements.now t.entry.index.now →
        Lists t.entry.long t.entry.file.now es t.entry.lists.now →
        Finds t.entry.long t.entry.file.now es d.now at result marks.new }
{
    let piece = document_text::piece_at(t.long, classes, d, at, given)?;
    match piece {
        Piece::StartTag(g) => {
            let x = tagged(t, d, g, at)?;
            held(t, d, x, given, g.given, at, marks)?;
            Ok(Found::Start(x, g.after))
        }
        Piece::EndTag(g) => {
            let x = tagged(t, d, g, at)?;
            Ok(Found::End(x, g.after))
        }
        Piece::Skipped(j) => Ok(Found::Passed(j)),
        Piece::Blank => Ok(Found::Blank),
        Piece::Data => Ok(Found::Data),
    }
}
