// The bytes of SGML text: their classes, and where names and separators end.
#![tactic(auto)]

ghost use Rattle.std.specs.Prelude.{◌≡◌, ℕ, Bool, ◌+◌, ◌≤◌, ◌<◌, length, drop};
ghost use Rattle.rules.specs.Bytes.{byte_at, allowed, separator, letter, name_byte, fold, span, name_end, separators_end};
ghost use Rattle.rules.specs.TypeFile.{at_dashes};
ghost use Rattle.text.specs.Refusal.{fault_at};

// Why an input is refused.
#[derive(Clone, Copy, Debug, PartialEq, Eq)]
pub enum Refusal {
    TooLong = 1,
    Byte = 2,
    NameTooLong = 3,
    Malformed = 4,
    LeftOut = 5,
    Quantity = 6,
    DeclaredTwice = 7,
    Elements = 8,
    Ambiguous = 9,
    Undeclared = 10,
    NotOpen = 11,
    NotAllowedHere = 12,
    Incomplete = 13,
    EndMissing = 14,
    TooDeep = 15,
    AfterEnd = 16,
    SectionEnd = 17,
    NoDocument = 18,
    NoRoom = 19,
    Attribute = 20,
    AttributeMissing = 21,
    Value = 22,
    Batch = 23,
    Settings = 24,
    Repeated = 25,
}

impl Refusal {
    // The refusal, pointing at a position.
    pub fn at(self, at: usize) -> Fault
        ensures { result ≡ fault_at self at }
    {
        Fault {
            number: self as u32,
            at: at,
        }
    }
}

// A refusal, and the position that it points at.
#[derive(Clone, Copy, Debug, PartialEq, Eq)]
pub struct Fault {
    pub number: u32,
    pub at: usize,
}

// What was read, or the refusal of it.
pub type Reading<T> = Result<T, Fault>;

// The byte at a position, 0 past the end: byte 0 is not allowed, so it fits nowhere.
pub fn byte(s: &[u8], at: usize) -> u8
    ensures { result ≡ byte_at s.now at }
{
    if at < s.len() { s[at] } else { 0 }
}

// Whether `--` stands at a position.
pub fn at_dashes(s: &[u8], at: usize) -> bool
    requires { at ≤ length s.now + 1 }
    ensures { result ≡ at_dashes s.now at }
{
    byte(s, at) == b'-' && byte(s, at + 1) == b'-'
}

// Whether a byte may stand in an input at all.
#[tactic(auto, unfolding(rules::specs::Bytes::allowed))]
pub fn is_allowed(b: u8) -> bool
    ensures { result ≡ allowed b }
{
    // Kept: `matches!` over these took five times as long (tried-speed).
    b == b'\t' || b == b'\n' || b == b'\r' || b' ' <= b && b <= b'~'
}

// Whether a byte is a tab, a line feed, a carriage return or a space.
#[tactic(auto, unfolding(rules::specs::Bytes::separator))]
pub fn is_separator(b: u8) -> bool
    ensures { result ≡ separator b }
{
    b == b'\t' || b == b'\n' || b == b'\r' || b == b' '
}

// Whether a byte is a letter, large or small.
#[tactic(auto, unfolding(rules::specs::Bytes::letter))]
pub fn is_letter(b: u8) -> bool
    ensures { result ≡ letter b }
{
    b.is_ascii_alphabetic()
}

// A byte that goes on a name: a letter, a digit, "." or "-".
#[tactic(auto, unfolding(rules::specs::Bytes::name_byte, rules::specs::Bytes::letter))]
pub fn is_name_byte(b: u8) -> bool
    ensures { result ≡ name_byte b }
{
    b.is_ascii_alphanumeric() || b == b'.' || b == b'-'
}

// Letters fold to upper case.
#[tactic(auto, unfolding(rules::specs::Bytes::fold))]
pub fn folded(b: u8) -> u8
    ensures { result ≡ fold b }
{
    b.to_ascii_uppercase()
}

// Where the bytes that pass a test end, from `at` on.
fn passed<F: Fn(u8) -> bool>(s: &[u8], at: usize, passes: F) -> usize
    requires within { at ≤ length s.now }
    requires callable { F.IsAlwaysCallable passes }
    ensures { (t : ℕ → Bool) → ((b : ℕ) (r : Bool) → F.post passes b r → r ≡ t b) →
        result ≡ at + span t (drop at s.now) }
{
    for i in at..s.len() {
        if !passes(s[i]) {
            return i;
        }
    }
    s.len()
}

// Where the name or word that begins at `at` ends.
#[tactic(auto, unfolding(rules::specs::Bytes::name_end))]
pub fn name_end(s: &[u8], at: usize) -> usize
    requires { at ≤ length s.now }
    ensures { result ≡ name_end s.now at }
{
    passed(s, at, is_name_byte)
}

// Where the separators at `at` end.
#[tactic(auto, unfolding(rules::specs::Bytes::separators_end))]
pub fn separators_end(s: &[u8], at: usize) -> usize
    requires { at ≤ length s.now }
    ensures { result ≡ separators_end s.now at }
{
    passed(s, at, is_separator)
}

// How many bytes stand before the first that is not allowed.
pub fn allowed_end(s: &[u8]) -> usize
    ensures { result ≡ span allowed s.now }
{
    passed(s, 0, is_allowed)
}
