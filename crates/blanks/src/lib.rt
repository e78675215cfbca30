// What comes next in a document: what stands at a position, in the current element. A blank, byte 9, 13 or
// 32, is data or ignored.
//
// `t` is what the document is read under (crate pieces), `begun` has the bits of what has begun in each open
// element, `classes` is the table of delimiters. Where the tables are no type's, `found` does not stand there,
// `begun`, `level`, `e` and `u` are those of no open element, or a place was taken though nothing came
// (`line.since` is 0), what comes next is unspecified, but that its element is at most 64 and that it ends
// further on, within the document.
#![tactic(auto)]

ghost use Rattle.std.specs.Prelude.{◌≡◌, true, List, ℕ, ◌≤◌, ◌<◌, length};
ghost use Rattle.rules.specs.Settings.{settings};
ghost use Rattle.rules.specs.TypeFile.{Element};
ghost use Rattle.rules.specs.Bytes.{GRPGTCNT, TAGLVL, document_limit, element_limit};
ghost use Rattle.rules.specs.Settling as rules;
ghost use Rattle.rules.specs.Records.{is_fresh};
ghost use Rattle.delimiters.specs.Classes.{Classes};
ghost use Rattle.type_tables.specs.Tables.{Tables, Entered};
ghost use Rattle.record_ends.specs.Held.{line_of};
ghost use Rattle.pieces.specs.Finds.{Stands, MovesOn};
ghost use Rattle.blanks.specs.Next.{Follows, MarksOf, Ahead};

use layout::{BEGUN, ElementNo, Place};
use pieces::{Found, Type};
use record_ends::Line;

// What comes next in the current element.
#[derive(Drop)]
pub enum Next {
    // It is the start tag of an element, or a run of data for 0, up to here.
    // Kept: 0 for data (plainer): both are settled by the same steps, and the tables have a cell for each.
    Token(ElementNo, usize),
    // It is the end tag of an element, up to here.
    End(ElementNo, usize),
    // It is ignored, up to here.
    Passed(usize),
}

// What comes next, where `found` stands at `at` and the current element, of which so many are around it as
// `level` says, is e after the place u. Only of a blank is anything asked: it is data, or ignored.
pub fn next_at(
    t: Type,
    classes: &[u8; 256],
    begun: &[u32; BEGUN],
    d: &[u8],
    level: usize,
    e: ElementNo,
    u: Place,
    at: usize,
    line: Line,
    found: Found,
) -> Next
    requires { Classes classes.now × (level ≤ TAGLVL) × (e.0 ≤ element_limit) × (u.0 ≤ GRPGTCNT) ×
        (at < length d.now) × (length d.now ≤ document_limit) × (line.since ≤ at) ×
        MovesOn (length d.now) at found }
    ensures ahead { Ahead (length d.now) at result }
    ensures follows { (es : List Element) (marks : List ℕ) →
        Tables t.entry.file.now es t.entry.tables.rows.now t.entry.tables.places.now
        t.entry.tables.facts.now t.entry.tables.members.now →
        Stands t.entry.long t.entry.file.now es d.now at found marks →
        (o : rules.Open) → Entered es t.entry.tables.members.now begun.now level e.0 u.0 o →
        (line.since ≡ 0 → is_fresh o ≡ true) →
        Follows (settings t.entry.long t.entry.edition) t.entry.file.now es d.now
        (line_of line.since line.mark) o at result ×
        MarksOf (settings t.entry.long t.entry.edition) t.entry.file.now es d.now at result marks }
{
    match found {
        Found::Start(x, after) => return Next::Token(x, after),
        Found::End(x, after) => return Next::End(x, after),
        Found::Passed(after) => return Next::Passed(after),
        Found::Blank => {
            if !type_tables::takes_data(t.tables, begun, level, e, u) {
                return Next::Passed(at + 1);
            }
            if line.is_ignored(t.edition, d, at, u) {
                return Next::Passed(at + 1);
            }
        }
        Found::Data => {}
    }
    let data = ElementNo(0);
    Next::Token(data, data_runs::run_end(classes, d, at + 1))
}
