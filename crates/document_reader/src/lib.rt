// The document reader: a type file, a document and a lent buffer in, events or one refusal out.
#![tactic(auto)]

ghost use Rattle.std.specs.Prelude.{◌≡◌, [], ◌≤◌, length, replicate};
ghost use Rattle.rules.specs.Lent.{Lent};
ghost use Rattle.rules.specs.Reader.{ReadAs};
ghost use Rattle.rules.specs.Bytes.{document_limit, element_limit};
ghost use Rattle.inputs.specs.Checks.{settings_of};
ghost use Rattle.table_fill.specs.Told.{NoMembers};
ghost use Rattle.type_stage.specs.Stages.{JudgedHeads};
ghost use Rattle.one_document.specs.Answer.{answer_of, CountFits, Judges, JudgedLists, Followed, Answers};

use inputs::Settings;
use layout::{ELEMENTS, EVENT, FACTS, INDEX, LISTS, MEMBERS, PLACES, RECORDS, ROWS};
use one_document::Answer;
use text::Reading;
use type_stage::Refused;

// Number 24 of the settings, numbers 1 and 2 of both inputs, then the type: accepted with so many elements in `elements`, the heads of their lists in `heads`,
// which is all 0 before, or refused. On refusal what both hold is not decided.
fn judged(
    c: Settings,
    s: &[u8],
    d: &[u8],
    elements: &mut [u32; RECORDS],
    heads: &mut [u16; ELEMENTS],
) -> Answer
    requires { heads.old ≡ replicate element_limit 0 }
    ensures { Judges (settings_of c) s.now d.now elements.new heads.new result }
{
    type_stage::in_order(type_stage::judged(c, s, elements, heads), d)
}

// A type that is accepted: what it was judged under, and its elements, so many.
#[derive(Clone, Copy)]
struct Accepted<'a> {
    settings: Settings,
    file: &'a [u8],
    elements: &'a [u32; RECORDS],
    count: usize,
}

// Fills the tables of an accepted type, whose elements are recorded and whose attributes are in `lists`, and reads the document under them. The table of
// members is all 0 before; a type without "&" may lend none.
fn read_tabled(
    a: Accepted,
    d: &[u8],
    lists: &[u16],
    members: &mut [u8],
    bytes: &mut [u8],
) -> Reading<usize>
    requires { JudgedLists (settings_of a.settings) a.file.now a.elements.now lists.now a.count ×
        (length d.now ≤ document_limit) × NoMembers a.file.now members.old }
    ensures { Followed (settings_of a.entry.settings) a.entry.file.now d.now [] [] bytes.old bytes.new result }
{
    let mut index = [0u8; INDEX];
    let mut rows = [0u8; ROWS];
    let mut places = [0u8; PLACES];
    let mut facts = [0u8; FACTS];
    element_index::fill_index(a.file, a.elements, a.count, &mut index);
    table_fill::fill(
        a.settings.name_length,
        a.file,
        a.elements,
        lists,
        a.count,
        &index,
        &mut rows,
        &mut places,
        &mut facts,
        members,
    );
    let t = one_document::under(
        a.settings, a.file, a.elements, &index, &rows, &places, &facts, members, lists,
    );
    one_document::follow(t, d, bytes)
}

// Reads the document under an accepted type, whose elements are recorded and whose attributes are in `lists`. A type without "&" needs no table of members.
fn read_listed(a: Accepted, d: &[u8], lists: &[u16], bytes: &mut [u8]) -> Reading<usize>
    requires { JudgedLists (settings_of a.settings) a.file.now a.elements.now lists.now a.count × (length d.now ≤ document_limit) }
    ensures { Followed (settings_of a.entry.settings) a.entry.file.now d.now [] [] bytes.old bytes.new result }
{
    if full_tables::holds_and(a.file) {
        let mut members = [0u8; MEMBERS];
        return read_tabled(a, d, lists, &mut members, bytes);
    }
    let mut none = [0u8; 0];
    read_tabled(a, d, lists, &mut none, bytes)
}

// Reads the document under an accepted type, whose elements are recorded and whose lists stand at `heads`. A type without attributes pays for no table of them.
fn read_under(a: Accepted, d: &[u8], heads: &[u16; ELEMENTS], bytes: &mut [u8]) -> Reading<usize>
    requires { JudgedHeads (settings_of a.settings) a.file.now a.elements.now heads.now a.count × (length d.now ≤ document_limit) }
    ensures { Followed (settings_of a.entry.settings) a.entry.file.now d.now [] [] bytes.old bytes.new result }
{
    if attribute_lists::has_any(heads, a.count) {
        let mut lists = [0u16; LISTS];
        attribute_lists::fill(a.settings.name_length, a.file, heads, a.count, &mut lists);
        return read_listed(a, d, &lists, bytes);
    }
    let none = [0u16; 0];
    read_listed(a, d, &none, bytes)
}

// The same to numbers, as the small program lends them. It fills all tables.
fn numbered(a: Accepted, d: &[u8], heads: &[u16; ELEMENTS], numbers: &mut [u32]) -> Reading<usize>
    requires { JudgedHeads (settings_of a.settings) a.file.now a.elements.now heads.now a.count × (length d.now ≤ document_limit) }
    ensures { Followed (settings_of a.entry.settings) a.entry.file.now d.now numbers.old numbers.new [] [] result }
{
    let mut lists = [0u16; LISTS];
    let mut index = [0u8; INDEX];
    let mut rows = [0u8; ROWS];
    let mut places = [0u8; PLACES];
    let mut facts = [0u8; FACTS];
    let mut members = [0u8; MEMBERS];
    full_tables::fill(
        a.settings.name_length,
        a.file,
        a.elements,
        heads,
        a.count,
        &mut lists,
        &mut index,
        &mut rows,
        &mut places,
        &mut facts,
        &mut members,
    );
    let t = one_document::under(
        a.settings, a.file, a.elements, &index, &rows, &places, &facts, &members, &lists,
    );
    let classes = delimiters::class_table();
    let mut none = [0u8; 0];
    document_events::events_of(t, &classes, d, numbers, &mut none)
}

// Judges the type and reads the document; a refusal zeroes nothing yet. Where it refuses, or the room is short, what the buffers hold is not
// decided.
fn answered(c: Settings, s: &[u8], d: &[u8], bytes: &mut [u8]) -> Answer
    ensures { Answers (settings_of c) s.now d.now [] [] bytes.old bytes.new result }
{
    let mut elements = [0u32; RECORDS];
    let mut heads = [0u16; ELEMENTS];
    let n = judged(c, s, d, &mut elements, &mut heads)?;
    let a = Accepted {
        settings: c,
        file: s,
        elements: &elements,
        count: n,
    };
    read_under(a, d, &heads, bytes).map_err(Refused::InDocument)
}

// The same to numbers.
// Kept: the twin of `answered` (plainer). They share `judged`; the step that differs, `read_under` or `numbered`, is the
// whole rest, and as a closure parameter it would need their contract as a trait's clause.
fn answered_in_numbers(c: Settings, s: &[u8], d: &[u8], numbers: &mut [u32]) -> Answer
    ensures { Answers (settings_of c) s.now d.now numbers.old numbers.new [] [] result }
{
    let mut elements = [0u32; RECORDS];
    let mut heads = [0u16; ELEMENTS];
    let n = judged(c, s, d, &mut elements, &mut heads)?;
    let a = Accepted {
        settings: c,
        file: s,
        elements: &elements,
        count: n,
    };
    numbered(a, d, &heads, numbers).map_err(Refused::InDocument)
}

// Reads a document under a type file and the settings c. The buffer gets five numbers for each event, or is zeroed.
pub fn read(c: Settings, s: &[u8], d: &[u8], buffer: &mut [u32]) -> Answer
    ensures read_as { ReadAs Lent.numbers (settings_of c) s.now d.now buffer.old (answer_of result) buffer.new }
    ensures count_fits { CountFits result }
{
    let v = answered_in_numbers(c, s, d, buffer);
    let a = one_document::fitted(v, buffer.len() / EVENT);
    if a.is_err() {
        buffer.fill(0);
    }
    a
}

// Reads a document under a type file and the settings c. The buffer of bytes gets five numbers of four bytes for each event, or is zeroed.
pub fn read_to_bytes(c: Settings, s: &[u8], d: &[u8], buffer: &mut [u8]) -> Answer
    ensures read_as { ReadAs Lent.bytes (settings_of c) s.now d.now buffer.old (answer_of result) buffer.new }
    ensures count_fits { CountFits result }
{
    let v = answered(c, s, d, buffer);
    one_document::settled(v, buffer)
}
