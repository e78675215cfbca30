// Attribute definition lists: which element one is for, its definitions, and the table of all of them.
//
// `heads` has for each element the offset at which its name ends in its list, or 0 if it has none.
// Kept: 0 for none (fixed: no heap, fixed memory: callers lend numbers of 16 bits).
#![tactic(auto)]

ghost use Rattle.std.specs.List.{list_any};
ghost use Rattle.std.specs.Prelude.{◌≡◌, List, ℕ, ◌+◌, ◌*◌, ◌≤◌, ◌<◌, length, replicate};
ghost use Rattle.rules.specs.Attributes.{AttList};
ghost use Rattle.rules.specs.TypeFile.{listed_element, attribute_list, attributes_of};
ghost use Rattle.rules.specs.TypeFile as rules;
ghost use Rattle.rules.specs.Bytes.{element_limit, type_limit};
ghost use Rattle.layout.specs.Sizes.{LIST, LISTS};
ghost use Rattle.element_names.specs.Names.{Recorded};
ghost use Rattle.list_table.specs.Lists.{ListAt};
ghost use Rattle.list_definitions.specs.ListAs.{ListIn};
ghost use Rattle.attribute_lists.specs.Listed.{Headed, is_head, any_in, listed_of, ListedFits};
ghost use Rattle.attribute_lists.specs.Listed.{MeetsLists, Again};

use element_names::Elements;
use layout::{ELEMENTS, ElementNo, LIST, RECORDS};
use text::{Reading, Refusal};

// The element of a list, and where its name ends.
#[derive(Clone, Copy)]
pub struct Head {
    pub element: ElementNo,
    pub at: usize,
}

// Whether it is a head, and not 0 for none.
fn is_head(h: u16) -> bool
    ensures { result ≡ is_head h }
{
    h != 0
}

// The element whose name stands at i. Where the table holds no records of elements, or `heads` no heads of
// lists, the answer is unspecified, but that an element that is got is one of the first `count` and has no
// head yet, and that its name ends in the input.
fn listed_at(long: usize, s: &[u8], i: usize, d: Elements, heads: &[u16; ELEMENTS]) -> Reading<Head>
    requires { (i ≤ length s.now) × (length s.now ≤ type_limit) × (d.count ≤ element_limit) }
    ensures { ((es : List rules.Element) (ls : List AttList) → length es ≡ d.entry.count →
        Recorded d.entry.records.now es → Headed long s.now heads.now ls →
        listed_of result ≡ listed_element long s.now es ls i)
        × ListedFits (length s.now) i d.entry.count heads.now result }
{
    let b = text::byte(s, i);
    if !text::is_letter(b) {
        if b == b'(' {
            return Err(Refusal::LeftOut.at(i));
        }
        return Err(gaps::unfit_at(s, i));
    }
    let e = text::name_end(s, i);
    if long < e - i {
        return Err(Refusal::NameTooLong.at(i));
    }
    let Some(k) = d.declared(s, i, e - i).element else {
        return Err(Refusal::Undeclared.at(i));
    };
    if is_head(heads[k.0 - 1]) {
        return Err(Refusal::Attribute.at(i));
    }
    Ok(Head { element: k, at: e })
}

// An attribute definition list declaration whose keyword ends at `at`, after the elements recorded in
// `elements` and the lists in `heads`, and where it ends. Where it is refused, what `heads` holds is
// unspecified. Where `elements` holds no records of elements, or `heads` no heads of lists, neither the
// answer nor what `heads` holds is specified, but that a list that is read ends in the input.
pub fn list_at(
    long: usize,
    s: &[u8],
    at: usize,
    elements: &[u32; RECORDS],
    count: usize,
    heads: &mut [u16; ELEMENTS],
) -> Reading<usize>
    requires { (3 ≤ at) × (at ≤ length s.now) × (length s.now ≤ type_limit) × (count ≤ element_limit) }
    ensures { ((es : List rules.Element) (ls : List AttList) → length es ≡ count → Recorded elements.now es → Headed long s.now heads.old ls →
        MeetsLists long s.now heads.new es result (attribute_list long s.now at es ls)) × ListIn (length s.now) at result }
{
    let i = gaps::gap_end(s, at)?;
    let d = Elements {
        records: elements,
        count: count,
    };
    let l = listed_at(long, s, i, d, heads)?;
    let mut list = [0u16; LIST];
    let e = list_definitions::definitions_at(long, s, l.at, &mut list)?;
    let h = l.element.0 - 1;
    heads[h] = l.at as u16;
    Ok(e)
}

// Whether one of these heads is no 0.
fn is_any(heads: &[u16]) -> bool
    ensures { result ≡ list_any is_head heads.now }
{
    heads.iter().any(|h| is_head(*h))
}

// Whether one of the first n elements has a list.
pub fn has_any(heads: &[u16; ELEMENTS], n: usize) -> bool
    requires { n ≤ element_limit }
    ensures { result ≡ any_in heads.now n }
{
    is_any(&heads[..n])
}

// Puts the list of the k-th element, from 0, whose head is `from`, into the table. A head that is no place
// behind a keyword is no type's. Where the head is not 0 and no list can be read from it on, what the table
// holds of the k-th element is unspecified; the lists of the others stay.
fn read_again(long: usize, s: &[u8], from: usize, k: usize, lists: &mut [u16])
    requires { (k < element_limit) × (length s.now ≤ type_limit) × (length lists.old ≡ LISTS) }
    ensures { Again long s.now from k lists.old lists.new }
{
    if from < 3 {
        return;
    }
    if s.len() < from {
        return;
    }
    let mut list = [0u16; LIST];
    if list_definitions::definitions_at(long, s, from, &mut list).is_ok() {
        list_table::put_list(lists, k, &list);
    }
}

// Fills the table, which is all 0, with the lists of a type of n elements, each read again from its head on.
// What the table holds behind the rows of a list, and behind the list of the n-th element, is unspecified;
// where `heads` has not the heads of lists, all of it is.
pub fn fill(long: usize, s: &[u8], heads: &[u16; ELEMENTS], n: usize, lists: &mut [u16])
    requires { (n ≤ element_limit) × (length s.now ≤ type_limit) × (lists.old ≡ replicate LISTS 0) }
    ensures { (ls : List AttList) → Headed long s.now heads.now ls → (k : ℕ) → k < n → ListAt long s.now lists.new (LIST * k) (attributes_of ls (k + 1)) }
{
    for k in 0..n {
        read_again(long, s, numbers::short(heads[k]), k, lists);
    }
}
