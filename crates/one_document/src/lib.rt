// One document under a type that has been judged and whose tables are filled: its events, the answer, number
// 19 if they do not fit, and a buffer that a refusal zeroes.
#![tactic(auto)]

ghost use Rattle.std.specs.Prelude.{◌≡◌, List, [], ℕ, ◌≤◌, length};
ghost use Rattle.rules.specs.Lent.{Lent};
ghost use Rattle.rules.specs.Settings.{settings, most_name_length};
ghost use Rattle.rules.specs.Settings as rules;
ghost use Rattle.rules.specs.TypeFile.{Element};
ghost use Rattle.rules.specs.Reader.{ReadAs};
ghost use Rattle.rules.specs.Bytes.{document_limit, type_limit};
ghost use Rattle.element_index.specs.Indexed.{Indexed};
ghost use Rattle.list_table.specs.Lists.{Lists};
ghost use Rattle.type_tables.specs.Tables.{Tables};
ghost use Rattle.document_events.specs.Loop.{EventsOf, Counted};
ghost use Rattle.one_document.specs.Answer.{answer_of, CountFits, Answers, fitted_to};

use inputs::Settings;
use layout::{EVENT, FACTS, INDEX, NUMBER, PLACES, RECORDS, ROWS};
use pieces::Type;
use text::{Reading, Refusal};
use type_stage::Refused;
use type_tables::TypeTables;

// The reader's answer: how many events there are, or which of the inputs is refused.
pub type Answer = Result<usize, Refused>;

// What a document is read under: the settings, the type file, its elements and its tables.
pub fn under<'x>(
    c: Settings,
    file: &'x [u8],
    elements: &'x [u32; RECORDS],
    index: &'x [u8; INDEX],
    rows: &'x [u8; ROWS],
    places: &'x [u8; PLACES],
    facts: &'x [u8; FACTS],
    members: &'x [u8],
    lists: &'x [u16],
) -> Type<'x>
    ensures { result ≡ record {
      long = c.name_length;
      edition = c.edition;
      file = file.entry;
      elements = elements.entry;
      index = index.entry;
      tables = record { rows = rows.entry; places = places.entry; facts = facts.entry; members = members.entry };
      lists = lists.entry;
    } }
{
    let tables = TypeTables {
        rows,
        places,
        facts,
        members,
    };
    Type {
        long: c.name_length,
        edition: c.edition,
        file,
        elements,
        index,
        tables,
        lists,
    }
}

// The events of the document under a type whose tables are filled, as bytes. No numbers are lent: that there
// are none is seen here, where the single call and the batch both come by, so that the loop writes bytes
// alone. Where the tables are no type's, neither the answer nor what the bytes hold is decided, but that
// there are at most 1050 events for each byte of the document, and for its end.
pub fn follow(t: Type, d: &[u8], bytes: &mut [u8]) -> Reading<usize>
    requires { (t.long ≤ most_name_length) × (length d.now ≤ document_limit) × (length t.file.now ≤ type_limit) }
    ensures by_type { (es : List Element) →
        Indexed t.entry.file.now es t.entry.elements.now t.entry.index.now →
        Tables t.entry.file.now es t.entry.tables.rows.now t.entry.tables.places.now t.entry.tables.facts.now t.entry.tables.members.now →
        Lists t.entry.long t.entry.file.now es t.entry.lists.now →
        EventsOf (settings t.entry.long t.entry.edition) t.entry.file.now es d.now [] [] bytes.old bytes.new result }
    ensures counted { Counted d.now result }
{
    let classes = delimiters::class_table();
    let mut none = [0u32; 0];
    document_events::events_of(t, &classes, d, &mut none, bytes)
}

// The answer where so many events fit.
pub fn fitted(a: Answer, room: usize) -> Answer
    ensures { result ≡ fitted_to room a }
{
    let count = a?;
    if room < count {
        return Err(Refused::InDocument(Refusal::NoRoom.at(0)));
    }
    Ok(count)
}

// The answer that was found, once the events fit the buffer of bytes; a refusal zeroes it. Of an answer that is not that of what the buffer holds nothing is decided.
pub fn settled(a: Answer, buffer: &mut [u8]) -> Answer
    ensures { (c : rules.Settings) (s d before : List ℕ) → length buffer.old ≡ length before → Answers c s d [] [] before buffer.old a →
        ReadAs Lent.bytes c s d before (answer_of result) buffer.new × CountFits result }
{
    let b = fitted(a, buffer.len() / NUMBER / EVENT);
    if b.is_err() {
        buffer.fill(0);
    }
    b
}
