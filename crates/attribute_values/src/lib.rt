// The value of an attribute: which part of which text it is, and whether it fits the declared value.
//
// A declared value has a number: 0 for CDATA, 1 for NUMBER, 2 for NAME, else the offset of the "(" of a name
// token group in the type file.
#![tactic(auto)]

ghost use Rattle.std.specs.List.{list_all};
ghost use Rattle.std.specs.Prelude.{◌≡◌, ◌||◌, List, ℕ, ◌+◌, ◌-◌, ◌≤◌, ◌<◌, length, eqb};
ghost use Rattle.rules.specs.Bytes.{digit, RE, RS, TAB, type_limit};
ghost use Rattle.rules.specs.Attributes.{Part, number, name, is_one_of};
ghost use Rattle.rules.specs.Attributes as rules;
ghost use Rattle.rules.specs.Given.{value_bytes};
ghost use Rattle.attribute_values.specs.Parts.{number_of, Grouped, part_in, is_same, GroupAt, DeclaredAs};
ghost use Rattle.attribute_values.specs.Tests.{plain};

// A declared value: a word, or a name token group, whose "(" stands there in the type file.
#[derive(Clone, Copy, Debug, PartialEq, Eq)]
pub enum DeclaredValue {
    Cdata,
    Number,
    Name,
    Group(usize),
}

impl DeclaredValue {
    // The number that stands for it.
    pub fn number(self) -> usize
        ensures { result ≡ number_of self }
    {
        match self {
            DeclaredValue::Cdata => 0,
            DeclaredValue::Number => 1,
            DeclaredValue::Name => 2,
            DeclaredValue::Group(at) => at,
        }
    }
}

impl From<usize> for DeclaredValue {
    ghost from_gives = { λ x v. (number_of v ≡ x) × Grouped v };

    fn from(x: usize) -> DeclaredValue {
        match x {
            0 => DeclaredValue::Cdata,
            1 => DeclaredValue::Number,
            2 => DeclaredValue::Name,
            at => DeclaredValue::Group(at),
        }
    }
}

// A part of a text; none of it where the part does not lie in it.
fn part(t: &[u8], at: usize, size: usize) -> &[u8]
    ensures { result.now ≡ part_in t.now at size }
{
    if t.len() < at {
        return &t[..0];
    }
    if t.len() - at < size {
        return &t[..0];
    }
    let e = at + size;
    &t[at..e]
}

// The value of an attribute event without its quotes: a part of the document d if it was written, of the type file s if it was defaulted.
pub fn value<'a>(s: &'a [u8], d: &'a [u8], is_written: bool, at: usize, size: usize) -> &'a [u8]
    ensures { result.now ≡ value_bytes s.now d.now is_written (record { at = at; size = size }) }
{
    if is_written {
        return part(d, at, size);
    }
    part(s, at, size)
}

// Whether it is byte 9, 10 or 13.
fn is_break(b: u8) -> bool
    ensures { result ≡ (eqb b TAB || (eqb b RS || eqb b RE)) }
{
    b == b'\t' || b == b'\n' || b == b'\r'
}

// Whether no byte 9, 10 or 13 is in it.
fn is_cdata(v: &[u8]) -> bool
    ensures { result ≡ list_all plain v.now }
{
    v.iter().all(|b| !is_break(*b))
}

// Whether a byte is a digit.
#[tactic(auto, unfolding(rules::specs::Bytes::digit))]
fn is_digit(b: u8) -> bool
    ensures { result ≡ digit b }
{
    b'0' <= b && b <= b'9'
}

// Whether all of them are digits.
fn is_digits(v: &[u8]) -> bool
    ensures { result ≡ list_all digit v.now }
{
    v.iter().all(|b| is_digit(*b))
}

// Whether it is 1 to `long` digits.
#[tactic(auto, unfolding(rules::specs::Attributes::fits))]
fn is_number(long: usize, v: &[u8]) -> bool
    ensures { (s : List ℕ) → result ≡ rules.fits long s number v.now }
{
    1 <= v.len() && v.len() <= long && is_digits(v)
}

// Whether it is a name of at most `long` bytes.
fn is_name(long: usize, v: &[u8]) -> bool
    ensures { (s : List ℕ) → result ≡ rules.fits long s name v.now }
{
    if !text::is_letter(text::byte(v, 0)) {
        return false;
    }
    if long < v.len() {
        return false;
    }
    text::name_end(v, 0) == v.len()
}

// Whether the token from i to e is the value, folded.
fn is_token(s: &[u8], i: usize, e: usize, v: &[u8]) -> bool
    requires { (i ≤ e) × (e ≤ length s.now) }
    ensures { result ≡ is_same s.now (record { at = i; size = e - i }) v.now }
{
    e - i == v.len() && words::same_within(s, i, v, 0, v.len())
}

// Whether it is one of the tokens of the group whose "(" stands at `at`, folded. Where no group stands there the answer is not decided.
fn is_in_group(s: &[u8], at: usize, v: &[u8]) -> bool
    requires { length s.now ≤ type_limit }
    ensures { (long : ℕ) (ps : List Part) → GroupAt long s.now at ps → result ≡ is_one_of s.now ps v.now }
{
    if s.len() <= at {
        return false;
    }
    let mut i = text::separators_end(s, at + 1);
    loop {
        let e = text::name_end(s, i);
        if is_token(s, i, e, v) {
            return true;
        }
        let j = text::separators_end(s, e);
        if !words::is_token_connector(text::byte(s, j)) {
            return false;
        }
        i = text::separators_end(s, j + 1);
    }
}

// Whether the value fits the declared value x of the type file s. Where that is none's the answer is not decided.
// Kept: x is any number, and no `DeclaredValue` (fixed: docs/PROMISES.md names `fits`, and the table of lists
// holds numbers).
pub fn fits(long: usize, s: &[u8], x: usize, v: &[u8]) -> bool
    requires { length s.now ≤ type_limit }
    ensures { (y : rules.DeclaredValue) → DeclaredAs long s.now x y → result ≡ rules.fits long s.now y v.now }
{
    match DeclaredValue::from(x) {
        DeclaredValue::Cdata => is_cdata(v),
        DeclaredValue::Number => is_number(long, v),
        DeclaredValue::Name => is_name(long, v),
        DeclaredValue::Group(at) => is_in_group(s, at, v),
    }
}
