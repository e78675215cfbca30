// An attribute in a start tag: how it is read, and how the attributes of a tag are stored.
#![tactic(auto)]

ghost use Rattle.std.specs.Prelude.{◌≡◌, ◌≤◌, ◌<◌, ◌+◌, length};
ghost use Rattle.rules.specs.Bytes.{name_byte, name_end, ATTCNT};
ghost use Rattle.rules.specs.Document.{specification};
ghost use Rattle.layout.specs.Sizes.{GIVEN};
ghost use Rattle.delimiters.specs.Classes.{Classes};
ghost use Rattle.tag_attributes.specs.Given.{WrittenFits, Keeps, kept_in, written_of};

use layout::{ATTCNT, GIVEN, WRITTEN};
use text::{Reading, Refusal};

// An attribute as a tag gives it: where its name stands and how long that is, where the literal's opening
// quote stands, and how long the value is.
#[derive(Clone, Copy)]
pub struct Written {
    pub name: usize,
    pub size: usize,
    pub quote: usize,
    pub width: usize,
}

// Whether a name may have the byte, by the table of byte classes.
fn is_name_byte(classes: &[u8; 256], b: u8) -> bool
    requires { Classes classes.now }
    ensures { result ≡ name_byte b }
{
    classes[b as usize] / 2 % 2 == 1
}

// Where the name that begins at `at` ends.
pub fn name_end(classes: &[u8; 256], s: &[u8], at: usize) -> usize
    requires { Classes classes.now × (at ≤ length s.now) }
    ensures { result ≡ name_end s.now at }
{
    for i in at..s.len() {
        if !is_name_byte(classes, s[i]) {
            return i;
        }
    }
    s.len()
}

// An attribute in a start tag, whose name, a letter, stands at i.
pub fn specification_at(long: usize, classes: &[u8; 256], s: &[u8], i: usize) -> Reading<Written>
    requires { Classes classes.now × (i ≤ length s.now) }
    ensures { written_of result ≡ specification long s.now i }
{
    let e = name_end(classes, s, i);
    if long < e - i {
        return Err(Refusal::NameTooLong.at(i));
    }
    let j = text::separators_end(s, e);
    if text::byte(s, j) != b'=' {
        return Err(Refusal::Malformed.at(j));
    }
    let k = text::separators_end(s, j + 1);
    if !literals::is_quote(text::byte(s, k)) {
        return Err(Refusal::Malformed.at(k));
    }
    let q = literals::literal_end(s, k)?;
    Ok(Written {
        name: i,
        size: e - i,
        quote: k,
        width: q - (k + 1),
    })
}

// Kept: numbers of 16 bits in an array that is lent, with their count beside (fixed: fixed memory, no heap).
// The attribute is kept as the n-th of its tag, from 0, unless ATTCNT + 1 are kept already, and `given` stays
// as it was; gives how many are kept then. What `given` holds behind one that is kept is not decided.
pub fn keep(given: &mut [u16; GIVEN], n: usize, w: Written) -> usize
    requires { (n ≤ ATTCNT + 1) × WrittenFits w }
    ensures { Keeps given.old n w given.new result }
{
    if ATTCNT < n {
        return n;
    }
    let i = WRITTEN * n;
    given[i] = w.name as u16;
    given[i + 1] = w.size as u16;
    given[i + 2] = w.quote as u16;
    given[i + 3] = w.width as u16;
    n + 1
}

// The n-th attribute that is kept, from 0.
pub fn kept(given: &[u16; GIVEN], n: usize) -> Written
    requires { n < ATTCNT + 1 }
    ensures { result ≡ kept_in given.now n }
{
    let i = WRITTEN * n;
    Written {
        name: usize::from(given[i]),
        size: usize::from(given[i + 1]),
        quote: usize::from(given[i + 2]),
        width: usize::from(given[i + 3]),
    }
}
