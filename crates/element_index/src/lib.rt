// The elements of a type by name.
//
// `index`: entry k is the next larger element whose name has the same length and first letter as that of k,
// or 0. Entry `CONTENTS` + b is the smallest element of bucket b. `elements` are the records of the type's
// elements.
#![tactic(auto)]

ghost use Rattle.std.specs.Prelude.{◌≡◌, List, ◌+◌, ◌-◌, ◌*◌, ◌≤◌, ◌<◌, length, get_or, replicate};
ghost use Rattle.rules.specs.Bytes.{byte_at, fold, same_text, element_limit};
ghost use Rattle.rules.specs.Settings.{Settings, most_name_length};
ghost use Rattle.rules.specs.TypeFile.{Element};
ghost use Rattle.rules.specs.Judge.{Accepts, record_width};
ghost use Rattle.rules.specs.Elements.{number_of};
ghost use Rattle.rules.specs.Lookup.{compared};
ghost use Rattle.layout.specs.Sizes.{INDEX, CONTENTS};
ghost use Rattle.element_reader.specs.Keeps.{Recorded};
ghost use Rattle.element_index.specs.Indexed.{Judged, bucket_of, follows, Indexed, put_in};

use layout::{CONTENTS, ELEMENTS, ElementNo, INDEX, LETTERS, RECORD, RECORDS};

// How many letters there are, as a byte.
const LETTER: u8 = LETTERS as u8;

// The bucket of a name by its first byte and its length. Letters that fold to one another are in the same.
fn bucket(first: u8, size: usize) -> usize
    requires { (1 ≤ size) × (size ≤ most_name_length) }
    ensures { (result ≡ CONTENTS + bucket_of first size) × (result < INDEX) }
{
    CONTENTS + (size - 1) * LETTERS + usize::from(first % LETTER)
}

// Where the name of the element k stands in the type file.
pub fn offset(elements: &[u32; RECORDS], k: ElementNo) -> usize
    requires { (1 ≤ k.0) × (k.0 ≤ element_limit) }
    ensures { (result ≡ get_or elements.now (record_width * (k.0 - 1)) 0) × (result < 4294967296) }
{
    elements[RECORD * (k.0 - 1)] as usize
}

// Whether n bytes of s from a and n bytes of t from b are equal, folded, where the first ones are: they
// have one bucket. Where these are not, what it answers is not decided. All of the bytes are there, so that
// none is asked whether it still is within, as `words::same_text` does. Most that are equal are so as they
// stand.
fn same_name(s: &[u8], a: usize, t: &[u8], b: usize, n: usize) -> bool
    requires { (1 ≤ n) × (a + n ≤ length s.now) × (b + n ≤ length t.now) }
    ensures { fold (byte_at s.now a) ≡ fold (byte_at t.now b) → result ≡ same_text s.now a t.now b n }
{
    for i in 1..n {
        let x = s[a + i];
        let y = t[b + i];
        if x != y && text::folded(x) != text::folded(y) {
            return false;
        }
    }
    true
}

// An element by its name, 0 if none has it, and with how many names that name was compared.
// Kept: (plainer) two results, and not one value under a condition. That 0 is no element is what
// `ElementNo` says, and the tables of a type hold it so: the contracts say `result.element.0 ≡ number_of
// ..`, and each caller would make a 0 of an `Option` again.
#[derive(Drop)]
pub struct Found {
    pub element: ElementNo,
    pub compared: usize,
}

// Whether the element k comes behind the one before it, and a name of this size stands in s where its
// record says. In the index of a type it does. Where the tables hold anything else, a search still ends and
// stays within them.
fn comes_next(
    s: &[u8],
    elements: &[u32; RECORDS],
    before: ElementNo,
    k: ElementNo,
    size: usize,
) -> bool
    requires { size ≤ most_name_length }
    ensures { result ≡ follows s.now elements.now before.0 k.0 size }
{
    before.0 < k.0 && k.0 <= ELEMENTS && offset(elements, k) + size <= s.len()
}

// Which element has the name of this size at `at` of t, which lies within t. The type file is s. Only names
// of the same length and first letter are compared, in declaration order, up to the one that is found.
// Where `index` is no index of a type neither answer is decided, but that both are at most `ELEMENTS`.
pub fn find(
    s: &[u8],
    elements: &[u32; RECORDS],
    index: &[u8; INDEX],
    t: &[u8],
    at: usize,
    size: usize,
) -> Found
    requires { (1 ≤ size) × (size ≤ most_name_length) × (at + size ≤ length t.now) }
    ensures element_value { (es : List Element) → Indexed s.now es elements.now index.now →
        (result.element.0 ≡ number_of s.now es t.now at size)
        × (result.compared ≡ compared s.now es t.now at size) }
    ensures element_le_element_limit { (result.element.0 ≤ element_limit)
        × (result.compared ≤ element_limit) }
{
    let first = text::byte(t, at);
    let none = ElementNo(0);
    if !text::is_letter(first) {
        return Found {
            element: none,
            compared: 0,
        };
    }
    // Kept: (plainer) the loop goes along links. No index is counted, and there is no slice to go over.
    let mut before = none;
    let mut k = ElementNo(usize::from(index[bucket(first, size)]));
    let mut n = 0;
    while comes_next(s, elements, before, k, size) {
        let i = k.0;
        if same_name(s, offset(elements, k), t, at, size) {
            return Found {
                element: k,
                compared: n + 1,
            };
        }
        n += 1;
        before = k;
        k = ElementNo(usize::from(index[i]));
    }
    Found {
        element: none,
        compared: n,
    }
}

// The element k comes before those of its bucket that are there.
fn put_index(s: &[u8], elements: &[u32; RECORDS], index: &mut [u8; INDEX], k: ElementNo)
    requires { (1 ≤ k.0) × (k.0 ≤ element_limit)
        × (1 ≤ get_or elements.now (record_width * (k.0 - 1) + 1) 0)
        × (get_or elements.now (record_width * (k.0 - 1) + 1) 0 ≤ most_name_length) }
    ensures { index.new ≡ put_in index.old
        (bucket_of (byte_at s.now (get_or elements.now (record_width * (k.0 - 1)) 0))
        (get_or elements.now (record_width * (k.0 - 1) + 1) 0)) k.0 }
{
    let i = k.0;
    let size = elements[RECORD * (i - 1) + 1] as usize;
    let b = bucket(text::byte(s, offset(elements, k)), size);
    index[i] = index[b];
    index[b] = i as u8;
}

// Fills the index, which is all 0, with the elements of an accepted type.
pub fn fill_index(s: &[u8], elements: &[u32; RECORDS], count: usize, index: &mut [u8; INDEX])
    requires judged { (c : Settings) × Judged c s.now elements.now count }
    requires index_value { index.old ≡ replicate INDEX 0 }
    ensures { (c : Settings) (es : List Element) → Accepts c s.now es → length es ≡ count →
        Recorded elements.now es → Indexed s.now es elements.now index.new }
{
    for k in (1..=count).rev() {
        put_index(s, elements, index, ElementNo(k));
    }
}
