// Literals: values in either kind of quotes, in a type file and in a tag.
#![tactic(auto)]

ghost use Rattle.std.specs.Prelude.{◌≡◌, true, ◌<◌, length};
ghost use Rattle.rules.specs.Attributes.{quote, literal_end};
ghost use Rattle.text.specs.Refusal.{reached};

use text::{Reading, Refusal};

// Whether the byte is one of the two quotes.
pub fn is_quote(b: u8) -> bool
    ensures { result ≡ quote b }
{
    b == b'"' || b == b'\''
}

// The closing quote of the literal whose opening quote stands at i. A reference in it, or the input's end, is refused.
pub fn literal_end(s: &[u8], i: usize) -> Reading<usize>
    requires { i < length s.now }
    ensures { reached result ≡ literal_end s.now i }
{
    let q = text::byte(s, i);
    for e in i + 1..s.len() {
        if s[e] == q {
            return Ok(e);
        }
        if delimiters::is_reference(s, e) {
            return Err(Refusal::LeftOut.at(e));
        }
    }
    Err(Refusal::Malformed.at(s.len()))
}
