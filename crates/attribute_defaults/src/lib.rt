// The default of an attribute: `#REQUIRED`, `#IMPLIED` or a literal that fits the declared value.
//
// A default has two numbers: 0 for `#REQUIRED`, 1 for `#IMPLIED`, else the offset of the literal's value; and
// the length of that value.
#![tactic(auto)]

ghost use Rattle.std.specs.Prelude.{◌≡◌, List, ℕ, ◌+◌, ◌≤◌, ◌<◌, length};
ghost use Rattle.rules.specs.Attributes as rules;
ghost use Rattle.rules.specs.TypeFile.{default_word, default_literal, default_value};
ghost use Rattle.rules.specs.Bytes.{type_limit};
ghost use Rattle.attribute_values.specs.Parts.{DeclaredAs};
ghost use Rattle.attribute_defaults.specs.DefaultOf.{number_of, width_of, default_of, DefaultFits};
ghost use Rattle.attribute_defaults.specs.Ways.{is_joined};

use attribute_values::DeclaredValue;
use text::{Reading, Refusal};

// The default of an attribute; of a literal, where its value begins, and how long that is.
#[derive(Clone, Copy, Debug, PartialEq, Eq)]
pub enum DefaultValue {
    Required,
    Implied,
    Literal(usize, usize),
}

impl DefaultValue {
    // The number that stands for it.
    pub fn number(self) -> usize
        ensures { result ≡ number_of self }
    {
        match self {
            DefaultValue::Required => 0,
            DefaultValue::Implied => 1,
            DefaultValue::Literal(at, _) => at,
        }
    }

    // How long its value is.
    pub fn width(self) -> usize
        ensures { result ≡ width_of self }
    {
        match self {
            DefaultValue::Required => 0,
            DefaultValue::Implied => 0,
            DefaultValue::Literal(_, width) => width,
        }
    }
}

// A default, and where it ends.
#[derive(Clone, Copy, Debug, PartialEq, Eq)]
pub struct Defaulted {
    pub value: DefaultValue,
    pub at: usize,
}

// `#REQUIRED` or `#IMPLIED`, from its `#` at i.
fn word_at(s: &[u8], i: usize) -> Reading<Defaulted>
    requires { (i < length s.now) × (length s.now ≤ type_limit) }
    ensures { (default_of result ≡ default_word s.now i) × DefaultFits (length s.now) i result }
{
    if !text::is_letter(text::byte(s, i + 1)) {
        return Err(Refusal::Malformed.at(i + 1));
    }
    let e = text::name_end(s, i + 1);
    if words::is_word(s, i + 1, e, b"REQUIRED") {
        return Ok(Defaulted {
            value: DefaultValue::Required,
            at: e,
        });
    }
    if words::is_word(s, i + 1, e, b"IMPLIED") {
        return Ok(Defaulted {
            value: DefaultValue::Implied,
            at: e,
        });
    }
    if words::is_cut(s, i + 1, e, b"REQUIRED") {
        return Err(Refusal::Malformed.at(s.len()));
    }
    if words::is_cut(s, i + 1, e, b"IMPLIED") {
        return Err(Refusal::Malformed.at(s.len()));
    }
    Err(Refusal::Malformed.at(i))
}

// A literal, from its opening quote at i, for the declared value x.
fn literal_at(long: usize, s: &[u8], x: usize, i: usize) -> Reading<Defaulted>
    requires { (1 ≤ i) × (i < length s.now) × (length s.now ≤ type_limit) }
    ensures { ((y : rules.DeclaredValue) → DeclaredAs long s.now x y →
        default_of result ≡ default_literal long s.now y i) × DefaultFits (length s.now) i result }
{
    let e = literals::literal_end(s, i)?;
    let size = e - (i + 1);
    let v = attribute_values::value(s, s, false, i + 1, size);
    if attribute_values::fits(long, s, x, v) {
        return Ok(Defaulted {
            value: DefaultValue::Literal(i + 1, size),
            at: e + 1,
        });
    }
    Err(Refusal::Value.at(i))
}

// Whether nothing parts the default at i from its declared value x, which ended at `from`: a group needs nothing between it and what follows.
// Where x stands for no declared value it is not decided.
fn is_joined(x: usize, from: usize, i: usize) -> bool
    ensures { (long : ℕ) (s : List ℕ) (y : rules.DeclaredValue) → DeclaredAs long s x y →
        result ≡ is_joined y from i }
{
    match DeclaredValue::from(x) {
        DeclaredValue::Group(_) => false,
        _ => i <= from,
    }
}

// The default at i of an attribute with the declared value x, which ended at `from`. Where x stands for no
// declared value of the type file the answer is not decided, but that a default which is read ends behind i
// in the text, and the value of a literal lies in it.
// Kept: x is any number, and no `DeclaredValue` (fixed: docs/PROMISES.md names `default_at`).
pub fn default_at(long: usize, s: &[u8], x: usize, from: usize, i: usize) -> Reading<Defaulted>
    requires { (1 ≤ i) × (i ≤ length s.now) × (length s.now ≤ type_limit) }
    ensures { ((y : rules.DeclaredValue) → DeclaredAs long s.now x y →
        default_of result ≡ default_value long s.now y from i) × DefaultFits (length s.now) i result }
{
    let b = text::byte(s, i);
    if b == b'#' {
        if is_joined(x, from, i) {
            return Err(Refusal::Malformed.at(i));
        }
        return word_at(s, i);
    }
    if !literals::is_quote(b) {
        return Err(gaps::unfit_at(s, i));
    }
    if is_joined(x, from, i) {
        return Err(Refusal::Malformed.at(i));
    }
    literal_at(long, s, x, i)
}
