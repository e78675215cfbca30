// What marks the beginning of markup: delimiters before a byte that lets them be recognized.
//
// A table of byte classes, 256 numbers, is passed down by all readers of a document (`Classes` of the specs).
#![tactic(auto)]

ghost use Rattle.std.specs.Prelude.{◌≡◌, ◌&&◌, ◌||◌, ◌+◌, ◌<◌, length, eqb, leb};
ghost use Rattle.rules.specs.Bytes.{byte_at, letter, AND, DSO, SOLIDUS};
ghost use Rattle.rules.specs.TypeFile.{at_dashes};
ghost use Rattle.rules.specs.Attributes.{is_reference};
ghost use Rattle.rules.specs.Document.{is_section_end};
ghost use Rattle.delimiters.specs.Classes.{Classes};

// Whether `/` and a letter stand behind `<` at i.
pub fn is_end_tag(s: &[u8], i: usize) -> bool
    requires { i < length s.now }
    ensures { result ≡ (eqb (byte_at s.now (i + 1)) SOLIDUS && letter (byte_at s.now (i + 2))) }
{
    text::byte(s, i + 1) == b'/' && text::is_letter(text::byte(s, i + 2))
}

// Whether `--` stands behind `<!` at i.
pub fn dashes_at(s: &[u8], i: usize) -> bool
    requires { i < length s.now }
    ensures { result ≡ at_dashes s.now (i + 2) }
{
    text::at_dashes(s, i + 2)
}

// Whether `<!` before the byte b is a form that is left out.
pub fn is_left_out(b: u8) -> bool
    ensures { result ≡ (letter b || eqb b DSO) }
{
    text::is_letter(b) || b == b'['
}

// Whether a byte is a letter or a digit.
fn is_letter_or_digit(b: u8) -> bool
    ensures { result ≡ (letter b || (leb 48 b && leb b 57)) }
{
    text::is_letter(b) || b.is_ascii_digit()
}

// Whether an entity or character reference stands at i.
pub fn is_reference(s: &[u8], i: usize) -> bool
    requires { i < length s.now }
    ensures { result ≡ (eqb (byte_at s.now i) AND && is_reference s.now i) }
{
    if text::byte(s, i) != b'&' {
        return false;
    }
    let b = text::byte(s, i + 1);
    text::is_letter(b) || b == b'#' && is_letter_or_digit(text::byte(s, i + 2))
}

// Whether `]]>` stands at i.
pub fn is_section_end(s: &[u8], i: usize) -> bool
    requires { i < length s.now }
    ensures { result ≡ is_section_end s.now i }
{
    text::byte(s, i) == b']' && text::byte(s, i + 1) == b']' && text::byte(s, i + 2) == b'>'
}

// The table of byte classes.
pub fn class_table() -> [u8; 256]
    ensures { Classes result }
{
    // The class of each byte, 32 a row, is 1 for one that may begin something else than data, 2 for one that may go on a name.
    *b"\0\0\0\0\0\0\0\0\0\0\x01\0\0\0\0\0\0\0\0\0\0\0\0\0\0\0\0\0\0\0\0\0\
        \0\0\0\0\0\0\x01\0\0\0\0\0\0\x02\x02\0\x02\x02\x02\x02\x02\x02\x02\x02\x02\x02\0\0\x01\0\0\0\
        \0\x02\x02\x02\x02\x02\x02\x02\x02\x02\x02\x02\x02\x02\x02\x02\x02\x02\x02\x02\x02\x02\x02\x02\x02\x02\x02\0\0\x01\0\0\
        \0\x02\x02\x02\x02\x02\x02\x02\x02\x02\x02\x02\x02\x02\x02\x02\x02\x02\x02\x02\x02\x02\x02\x02\x02\x02\x02\0\0\0\0\0\
        \0\0\0\0\0\0\0\0\0\0\0\0\0\0\0\0\0\0\0\0\0\0\0\0\0\0\0\0\0\0\0\0\
        \0\0\0\0\0\0\0\0\0\0\0\0\0\0\0\0\0\0\0\0\0\0\0\0\0\0\0\0\0\0\0\0\
        \0\0\0\0\0\0\0\0\0\0\0\0\0\0\0\0\0\0\0\0\0\0\0\0\0\0\0\0\0\0\0\0\
        \0\0\0\0\0\0\0\0\0\0\0\0\0\0\0\0\0\0\0\0\0\0\0\0\0\0\0\0\0\0\0\0"
}
