// A tag of a document: name, the attributes of a start tag, separators, `>`.
#![tactic(auto)]

ghost use Rattle.std.specs.Prelude.{◌≡◌, [], ◌≤◌, length};
ghost use Rattle.rules.specs.Document.{tag, start_tag_at};
ghost use Rattle.rules.specs.Bytes.{document_limit};
ghost use Rattle.delimiters.specs.Classes.{Classes};
ghost use Rattle.tags.specs.Tags.{tag_of};
ghost use Rattle.tags.specs.Given.{MeetsTag};
ghost use Rattle.tags.specs.Attributes.{specifications_on};

use layout::GIVEN;
use text::{Reading, Refusal};

// A tag: where its name stands, how long that is, where the tag ends, and how many of the attributes that
// it gives are kept.
#[derive(Clone, Copy)]
pub struct Tag {
    pub name: usize,
    pub size: usize,
    pub after: usize,
    pub given: usize,
}

// An end tag: name, separators, `>`, where the name begins at i. A name that is too long is refused before
// what follows it.
pub fn tag_at(long: usize, classes: &[u8; 256], s: &[u8], i: usize) -> Reading<Tag>
    requires { Classes classes.now × (i ≤ length s.now) }
    ensures { tag_of result ≡ tag long s.now i }
{
    let e = tag_attributes::name_end(classes, s, i);
    if long < e - i {
        return Err(Refusal::NameTooLong.at(i));
    }
    let j = text::separators_end(s, e);
    if text::byte(s, j) == b'>' {
        return Ok(Tag {
            name: i,
            size: e - i,
            after: j + 1,
            given: 0,
        });
    }
    Err(Refusal::Malformed.at(j))
}

// What follows the name of a start tag, from i to e, and the separators behind it, which end at `first`:
// attributes, separators, `>`.
fn attributes_at(
    long: usize,
    classes: &[u8; 256],
    s: &[u8],
    i: usize,
    e: usize,
    first: usize,
    given: &mut [u16; GIVEN],
) -> Reading<Tag>
    requires { Classes classes.now × (i ≤ e) × (e ≤ first) × (first ≤ length s.now) ×
        (length s.now ≤ document_limit) }
    ensures { MeetsTag (length s.now) given.new result (specifications_on long (length s.now) s.now i e first []) }
{
    let mut n = 0;
    let mut j = first;
    // Kept: a turn goes on behind a whole attribute, so the turns are no count (plainer).
    while text::is_letter(text::byte(s, j)) {
        let w = tag_attributes::specification_at(long, classes, s, j)?;
        n = tag_attributes::keep(given, n, w);
        j = text::separators_end(s, w.quote + w.width + 2);
    }
    if text::byte(s, j) == b'>' {
        return Ok(Tag {
            name: i,
            size: e - i,
            after: j + 1,
            given: n,
        });
    }
    Err(Refusal::Malformed.at(j))
}

// A start tag: name, attributes, separators, `>`, where the name begins at i. What `given` holds behind the
// attributes that are kept, and where the tag is refused, is not decided.
pub fn start_tag_at(
    long: usize,
    classes: &[u8; 256],
    s: &[u8],
    i: usize,
    given: &mut [u16; GIVEN],
) -> Reading<Tag>
    requires { Classes classes.now × (i ≤ length s.now) × (length s.now ≤ document_limit) }
    ensures { MeetsTag (length s.now) given.new result (start_tag_at long s.now i) }
{
    let e = tag_attributes::name_end(classes, s, i);
    let size = e - i;
    if long < size {
        return Err(Refusal::NameTooLong.at(i));
    }
    let j = text::separators_end(s, e);
    if text::byte(s, j) == b'>' {
        return Ok(Tag {
            name: i,
            size: size,
            after: j + 1,
            given: 0,
        });
    }
    attributes_at(long, classes, s, i, e, j, given)
}
