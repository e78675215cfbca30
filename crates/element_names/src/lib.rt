// The names of elements while a type is read: which element has a name, and the name of an element that is
// declared, at most as long as the caller says, for the first time, and at most the 64th.
#![tactic(auto)]

ghost use Rattle.std.specs.Prelude.{◌≡◌, List, ◌≤◌, ◌<◌, length, get_or, IfSome};
ghost use Rattle.rules.specs.TypeFile.{declared_from, element_name};
ghost use Rattle.rules.specs.TypeFile as rules;
ghost use Rattle.rules.specs.Lookup.{is_alike, compared};
ghost use Rattle.rules.specs.Bytes.{element_limit, type_limit};
ghost use Rattle.layout.specs.Sizes.{RECORDS};
ghost use Rattle.text.specs.Refusal.{reached};
ghost use Rattle.element_names.specs.Names.{Recorded, name_at, number_of, NameIn};

use layout::{ELEMENTS, ElementNo, RECORD, RECORDS};
use text::{Reading, Refusal};

// The elements declared so far: how many there are, and the table that begins with their records.
// Kept: (fixed) that there are at most 64 is a clause of `declared` and `element_name`, which docs/PROMISES.md
// names, and not an invariant of the type.
#[derive(Clone, Copy)]
pub struct Elements<'a> {
    pub records: &'a [u32; RECORDS],
    pub count: usize,
}

// The element that has a name, if one has, and with how many names it was compared.
// Kept: (plainer) two results, and not one value under a condition: the count stands beside both answers.
#[derive(Clone, Copy)]
pub struct Lookup {
    pub element: Option<ElementNo>,
    pub compared: usize,
}

impl<'a> Elements<'a> {
    // A number of the table.
    fn number(self, k: usize) -> usize
        requires { k < RECORDS }
        ensures { (result ≡ get_or self.entry.records.now k 0) × (result < 4294967296) }
    {
        self.records[k] as usize
    }

    // Whether the name of the k-th record is of this size and begins with the letter at `at`, folded.
    fn is_alike(self, s: &[u8], k: usize, at: usize, size: usize) -> bool
        requires { k < element_limit }
        ensures { result ≡ is_alike s.now (name_at self.entry.records.now k) s.now at size }
    {
        if self.number(RECORD * k + 1) != size {
            return false;
        }
        let first = text::byte(s, self.number(RECORD * k));
        text::folded(first) == text::folded(text::byte(s, at))
    }

    // The element that has the name of this size at `at`. Only names of the same length and first letter
    // are compared, in declaration order, up to the one that is found. Where the table holds no records of
    // elements the answer is unspecified, but that an element that is found is one of the first `count`,
    // and that at most `count` names are compared.
    pub fn declared(self, s: &[u8], at: usize, size: usize) -> Lookup
        requires { (self.count ≤ element_limit) × (at < 4294967296) × (1 ≤ size) × (size < 4294967296) }
        ensures found_value { (es : List rules.Element) → length es ≡ self.entry.count →
            Recorded self.entry.records.now es → (number_of result.element ≡ declared_from 1 s.now es at size)
            × (result.compared ≡ compared s.now es s.now at size) }
        ensures found_in_count { IfSome result.element (λ e. (1 ≤ e.0) × (e.0 ≤ self.entry.count)) }
        ensures compared_le_count { result.compared ≤ self.entry.count }
    {
        let mut n = 0;
        for k in 0..self.count {
            if self.is_alike(s, k, at, size) {
                if words::same_text(s, self.number(RECORD * k), s, at, size) {
                    return Lookup {
                        element: Some(ElementNo(k + 1)),
                        compared: n + 1,
                    };
                }
                n += 1;
            }
        }
        Lookup {
            element: None,
            compared: n,
        }
    }
}

// The name of the element, declared for the first time, at most the 64th. Where the table holds no records
// of elements the answer is unspecified, but that a name that is got lies in the input, has at most `long`
// bytes, and is at most the 64th.
pub fn element_name(long: usize, s: &[u8], i: usize, d: Elements) -> Reading<usize>
    requires { (i ≤ length s.now) × (length s.now ≤ type_limit) × (d.count ≤ element_limit) }
    ensures result_value { (es : List rules.Element) → length es ≡ d.entry.count →
        Recorded d.entry.records.now es → reached result ≡ element_name long s.now i es }
    ensures name_in { NameIn long (length s.now) i d.entry.count result }
{
    let b = text::byte(s, i);
    if text::is_letter(b) {
        let e = text::name_end(s, i);
        if long < e - i {
            return Err(Refusal::NameTooLong.at(i));
        }
        if d.declared(s, i, e - i).element.is_some() {
            return Err(Refusal::DeclaredTwice.at(i));
        }
        if ELEMENTS <= d.count {
            return Err(Refusal::Elements.at(i));
        }
        return Ok(e);
    }
    if b == b'(' {
        return Err(Refusal::LeftOut.at(i));
    }
    Err(gaps::unfit_at(s, i))
}
