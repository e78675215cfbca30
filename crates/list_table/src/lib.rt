// The attribute lists of a type, as a table.
//
// For each element how many attributes it has, then five numbers for each of them: the offset and length of
// its name, the declared value (0 CDATA, 1 NUMBER, 2 NAME, else the offset of the "(" of its name token
// group), the default (0 `#REQUIRED`, 1 `#IMPLIED`, else the offset of its literal's value) and the length of
// that value. If no element has a list, the table is empty.
//
// Whatever the table holds, each function terminates and stays within it.
#![tactic(auto)]

ghost use Rattle.std.specs.Prelude.{◌≡◌, List, [], ◌∷◌, ◌++◌, ℕ, ◌+◌, ◌*◌, ◌-◌, ◌≤◌, ◌<◌, length, get_or};
ghost use Rattle.std.specs.Prelude.{eqb, IfSome};
ghost use Rattle.rules.specs.Bytes.{ATTCNT, element_limit};
ghost use Rattle.rules.specs.Attributes.{Attribute, attribute_of, needs_tag};
ghost use Rattle.layout.specs.Sizes.{ATTRIBUTE, LIST, LISTS};
ghost use Rattle.list_table.specs.Lists.{row_in, Short, RowOf, is_named, number_of, ListAt, Added, Copied};

use layout::{ATTCNT, ATTRIBUTE, AttributeNo, ElementNo, LIST};

// A list by itself is the table of one element, which is this one.
pub const ONLY: ElementNo = ElementNo(1);

// What is kept of an attribute.
// Kept: the numbers of the declared value and of the default, and no enums (fixed: the table holds numbers of
// 16 bits, and the rows of attribute_records give these numbers to C).
#[derive(Clone, Copy, Debug, PartialEq, Eq)]
pub struct Row {
    pub name: usize,
    pub size: usize,
    pub value: usize,
    pub default: usize,
    pub width: usize,
}

impl Row {
    // Whether its attribute is required.
    pub fn is_required(self) -> bool
        ensures { result ≡ eqb self.default 0 }
    {
        self.default == 0
    }
}

// A number of the table; 0 past its end.
fn number(lists: &[u16], i: usize) -> usize
    ensures { (result ≡ get_or lists.now i 0) × (result < 65536) }
{
    if lists.len() <= i {
        return 0;
    }
    numbers::short(lists[i])
}

// The five numbers from i on.
fn row_at(lists: &[u16], i: usize) -> Row
    requires { i < 4294967296 }
    ensures { (result ≡ row_in lists.now i) × Short result }
{
    Row {
        name: number(lists, i),
        size: number(lists, i + 1),
        value: number(lists, i + 2),
        default: number(lists, i + 3),
        width: number(lists, i + 4),
    }
}

// How many attributes the element e has; data, for which e is 0, has none. Where the table has no list of the
// element the answer is not decided, but that it is at most ATTCNT.
pub fn count(lists: &[u16], e: ElementNo) -> usize
    requires { e.0 ≤ element_limit }
    ensures { ((long : ℕ) (s : List ℕ) (xs : List Attribute) → 1 ≤ e.0 → ListAt long s lists.now (LIST * (e.0 - 1)) xs → result ≡ length xs) × (result ≤ ATTCNT) × (e.0 ≡ 0 → result ≡ 0) }
{
    if e.0 == 0 {
        return 0;
    }
    let n = number(lists, LIST * (e.0 - 1));
    if ATTCNT < n {
        return 0;
    }
    n
}

// The attribute k of the element e, from 0.
pub fn attribute(lists: &[u16], e: ElementNo, k: usize) -> Row
    requires { (1 ≤ e.0) × (e.0 ≤ element_limit) × (k < ATTCNT) }
    ensures { (result ≡ row_in lists.now (LIST * (e.0 - 1) + 1 + ATTRIBUTE * k)) × Short result }
{
    row_at(lists, LIST * (e.0 - 1) + 1 + ATTRIBUTE * k)
}

// The attribute k of a list by itself, from 0, which had k before. Whatever stood there: its row is put, it
// is the last, and nothing else changes.
pub fn put_attribute(list: &mut [u16; LIST], k: usize, r: Row)
    requires { (k < ATTCNT) × Short r }
    ensures puts_row { Added k r list.old list.new }
    ensures by_index { (long : ℕ) (s : List ℕ) (xs : List Attribute) (x : Attribute) → length xs ≡ k →
        ListAt long s list.old 0 xs → RowOf long s r x → ListAt long s list.new 0 (xs ++ x ∷ []) }
{
    let i = 1 + ATTRIBUTE * k;
    list[i] = r.name as u16;
    list[i + 1] = r.size as u16;
    list[i + 2] = r.value as u16;
    list[i + 3] = r.default as u16;
    list[i + 4] = r.width as u16;
    list[0] = (k + 1) as u16;
}

// A list by itself as that of the element k + 1: its rows are copied, and nothing else changes. Where it is
// no list, what the table has for that element is not decided, but that each number there is as it was or the
// one of `list`.
pub fn put_list(lists: &mut [u16], k: usize, list: &[u16; LIST])
    requires { (k < element_limit) × (length lists.old ≡ LISTS) }
    ensures { Copied list.now (LIST * k) lists.old lists.new }
{
    let from = LIST * k;
    let end = 1 + ATTRIBUTE * count(list, ONLY);
    for i in 0..end {
        lists[from + i] = list[i];
    }
}

// Whether one of the element's attributes is required: its start tag is never inferred. Where the table has
// no list of the element the answer is not decided.
pub fn needs_tag(lists: &[u16], e: ElementNo) -> bool
    requires { (1 ≤ e.0) × (e.0 ≤ element_limit) }
    ensures { (long : ℕ) (s : List ℕ) (xs : List Attribute) → ListAt long s lists.now (LIST * (e.0 - 1)) xs → result ≡ needs_tag xs }
{
    for k in 0..count(lists, e) {
        if attribute(lists, e, k).is_required() {
            return true;
        }
    }
    false
}

// Whether the attribute of a row has the name of this size at `at` in the text t. A name that does not lie in the type file is no type's.
fn is_named(s: &[u8], r: Row, t: &[u8], at: usize, size: usize) -> bool
    requires { Short r × (at + size ≤ length t.now) × (length t.now < 4294967296) }
    ensures { result ≡ is_named s.now r t.now at size }
{
    if r.size != size {
        return false;
    }
    if s.len() < r.name + size {
        return false;
    }
    words::same_within(s, r.name, t, at, size)
}

// The attribute of the element e that has the name of this size at `at` in the text t. Where the table has no
// list of the element the answer is not decided, but that it is none or one of the first ATTCNT.
pub fn find(
    s: &[u8],
    lists: &[u16],
    e: ElementNo,
    t: &[u8],
    at: usize,
    size: usize,
) -> Option<AttributeNo>
    requires { (1 ≤ e.0) × (e.0 ≤ element_limit) × (at + size ≤ length t.now) × (length t.now < 4294967296) }
    ensures { ((long : ℕ) (xs : List Attribute) → ListAt long s.now lists.now (LIST * (e.0 - 1)) xs →
        number_of result ≡ attribute_of s.now xs t.now at size)
        × IfSome result (λ a. (1 ≤ a.0) × (a.0 ≤ ATTCNT)) }
{
    for k in 0..count(lists, e) {
        if is_named(s, attribute(lists, e, k), t, at, size) {
            return Some(AttributeNo(k + 1));
        }
    }
    None
}
