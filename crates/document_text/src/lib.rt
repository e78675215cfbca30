// The pieces of a document, read from its bytes.
#![tactic(auto)]

ghost use Rattle.std.specs.Prelude.{◌≡◌, ◌||◌, ◌≤◌, ◌<◌, length, eqb};
ghost use Rattle.rules.specs.Document.{declaration_piece, markup_piece, byte_piece, piece};
ghost use Rattle.rules.specs.Bytes.{RE, SPACE, TAB, document_limit};
ghost use Rattle.delimiters.specs.Classes.{Classes};
ghost use Rattle.document_text.specs.PieceOf.{piece_of, MeetsPiece};

use layout::GIVEN;
use tags::Tag;
use text::{Reading, Refusal};

// What stands at a position of the document.
#[derive(Drop)]
pub enum Piece {
    StartTag(Tag),
    EndTag(Tag),
    // It is a comment declaration, `<!>` or byte 10, up to here.
    Skipped(usize),
    // It is byte 9, 13 or 32, which is data or ignored.
    Blank,
    Data,
}

// What `<!` at i begins.
fn declaration_at(s: &[u8], i: usize) -> Reading<Piece>
    requires { i < length s.now }
    ensures { piece_of result ≡ declaration_piece s.now i }
{
    let b = text::byte(s, i + 2);
    if b == b'>' {
        return Ok(Piece::Skipped(i + 3));
    }
    if delimiters::dashes_at(s, i) {
        // What is refused in a comment declaration is malformed: a document has no `%` to leave out.
        let after = gaps::comment_end(s, i + 2).map_err(|f| Refusal::Malformed.at(f.at))?;
        return Ok(Piece::Skipped(after));
    }
    if delimiters::is_left_out(b) {
        return Err(Refusal::LeftOut.at(i));
    }
    Ok(Piece::Data)
}

// What `<` at i begins.
fn markup_at(
    long: usize,
    classes: &[u8; 256],
    s: &[u8],
    i: usize,
    given: &mut [u16; GIVEN],
) -> Reading<Piece>
    requires { Classes classes.now × (i < length s.now) × (length s.now ≤ document_limit) }
    ensures { MeetsPiece (length s.now) given.new result (markup_piece long s.now i) }
{
    let b = text::byte(s, i + 1);
    if text::is_letter(b) {
        return Ok(Piece::StartTag(tags::start_tag_at(long, classes, s, i + 1, given)?));
    }
    if delimiters::is_end_tag(s, i) {
        return Ok(Piece::EndTag(tags::tag_at(long, classes, s, i + 2)?));
    }
    if b == b'!' {
        return declaration_at(s, i);
    }
    if b == b'?' {
        return Err(Refusal::LeftOut.at(i));
    }
    Ok(Piece::Data)
}

// Whether the byte is a tab, a record end or a space.
fn is_blank(b: u8) -> bool
    ensures { result ≡ (eqb b TAB || (eqb b RE || eqb b SPACE)) }
{
    b == b'\t' || b == b'\r' || b == b' '
}

// What the byte at i is by itself.
fn byte_at(s: &[u8], i: usize) -> Reading<Piece>
    requires { i < length s.now }
    ensures { piece_of result ≡ byte_piece s.now i }
{
    let b = text::byte(s, i);
    if b == b'\n' {
        return Ok(Piece::Skipped(i + 1));
    }
    if is_blank(b) {
        return Ok(Piece::Blank);
    }
    Ok(Piece::Data)
}

// What stands at i, where the document does not end. Where it is a start tag, `given` has the attributes
// that it gives (crate tag_attributes); else what that holds is not decided.
pub fn piece_at(
    long: usize,
    classes: &[u8; 256],
    s: &[u8],
    i: usize,
    given: &mut [u16; GIVEN],
) -> Reading<Piece>
    requires { Classes classes.now × (i < length s.now) × (length s.now ≤ document_limit) }
    ensures { MeetsPiece (length s.now) given.new result (piece long s.now i) }
{
    if text::byte(s, i) == b'<' {
        return markup_at(long, classes, s, i, given);
    }
    if delimiters::is_reference(s, i) {
        return Err(Refusal::LeftOut.at(i));
    }
    if delimiters::is_section_end(s, i) {
        return Err(Refusal::SectionEnd.at(i));
    }
    byte_at(s, i)
}
