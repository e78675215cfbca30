// The events of a document under a type whose tables are filled.
//
// `t` is what the document is read under (crate pieces), `classes` is the table of delimiters. If the tables
// are not those of a type, the answer and the contents of the buffers are unspecified; the loop still
// terminates.
#![tactic(auto)]

ghost use Rattle.std.specs.Prelude.{List, ◌≤◌, length};
ghost use Rattle.rules.specs.Settings.{settings, most_name_length};
ghost use Rattle.rules.specs.TypeFile.{Element};
ghost use Rattle.rules.specs.Bytes.{document_limit, type_limit};
ghost use Rattle.delimiters.specs.Classes.{Classes};
ghost use Rattle.element_index.specs.Indexed.{Indexed};
ghost use Rattle.list_table.specs.Lists.{Lists};
ghost use Rattle.type_tables.specs.Tables.{Tables};
ghost use Rattle.document_events.specs.Loop.{EventsOf, Counted};

use blanks::Next;
use layout::{BEGUN, GIVEN, MARKS, TAGLVL};
use open_elements::OpenElements;
use pieces::Type;
use record_ends::Line;
use text::{Reading, Refusal};

// How many events the document d has under a type. Its events go to a buffer of numbers and to one of bytes,
// each as far as they fit. What a buffer holds that is too small for all of them, or where the document is
// refused, is not decided; it keeps its length, and the reader zeroes it. Where the tables are no type's,
// neither the answer nor what the buffers hold is decided, but that there are at most 1050 events for each
// byte of the document, and for its end.
//
// Kept: n beside `numbers` and `bytes`: (plainer) n counts on where an event no longer fits, so that it is no
// length of theirs, and each of the two may be too short alone.
//
// The steps of a start tag or of data stand here, and not in a function of their own: such a function has a
// state of its own, and copies the array of the open elements at each token.
pub fn events_of(
    t: Type,
    classes: &[u8; 256],
    d: &[u8],
    numbers: &mut [u32],
    bytes: &mut [u8],
) -> Reading<usize>
    requires { Classes classes.now × (t.long ≤ most_name_length) × (length d.now ≤ document_limit) ×
        (length t.file.now ≤ type_limit) }
    ensures by_type { (es : List Element) →
        Indexed t.entry.file.now es t.entry.elements.now t.entry.index.now →
        Tables t.entry.file.now es t.entry.tables.rows.now t.entry.tables.places.now t.entry.tables.facts.now
        t.entry.tables.members.now →
        Lists t.entry.long t.entry.file.now es t.entry.lists.now →
        EventsOf (settings t.entry.long t.entry.edition) t.entry.file.now es d.now numbers.old numbers.new
        bytes.old bytes.new result }
    ensures counted { Counted d.now result }
{
    let mut at = 0;
    let mut n = 0;
    let mut o = OpenElements::new();
    let mut begun = [0u32; BEGUN];
    let mut given = [0u16; GIVEN];
    let mut marks = [0u16; MARKS];
    let mut line = Line { since: 0, mark: 0 };
    // Where the last start tag or run of data began.
    let mut from = 0;
    // Kept: a turn goes on behind a whole piece, so the turns are no count (plainer).
    while at < d.len() {
        let e = o.element;
        let u = o.place;
        let p = pieces::found_at(t, classes, d, at, &mut given, &mut marks)?;
        match blanks::next_at(t, classes, &begun, d, o.count, e, u, at, line, p) {
            // A start tag of x, or a run of data where x is 0.
            Next::Token(x, after) => {
                // The document element has ended.
                if ways::is_over(o) {
                    return Err(Refusal::AfterEnd.at(at));
                }
                // Steps 1 to 3: ends are inferred until x fits, or starts can be inferred before it, or it is
                // stuck.
                let f = inferring::ends(t.tables, &begun, o, x, at, n, numbers, bytes);
                let found = f.found;
                let starts = ways::starts_of(found);
                let mut m = f.events;
                o = f.open;
                // A run of data that is held is put whole where more of its element follows. Whether starts
                // are inferred is asked first: with one call for both the compiler takes 7 % more
                // instructions.
                if starts == 0 {
                    m = record_ends::freed(t.edition, d, from, line.since, n, m, numbers, bytes);
                } else {
                    // So many starts would be too many.
                    if TAGLVL < o.count + starts {
                        return Err(Refusal::TooDeep.at(at));
                    }
                    m = record_ends::freed(t.edition, d, from, line.since, n, m, numbers, bytes);
                }
                // Step 2: the starts are inferred, one in the other.
                for k in 0..starts {
                    let j = inferring::next_start(t.tables, o);
                    m = attribute_events::put_defaults(t.lists, j, m, numbers, bytes);
                    o = inferring::infer_start(t.tables, &mut begun, o, at, m, numbers, bytes);
                    m += 1;
                }
                // The attribute events of a start tag come before its own. A type without attributes is told
                // here, where it costs least.
                if t.lists.len() != 0 {
                    m = attribute_events::put_written(t.lists, &marks, x, m, numbers, bytes);
                }
                let shown = record_ends::shown_end(t.edition, d, after);
                // The token takes its place, and its events are put; where it is stuck, or no room is left
                // for its element, it is refused.
                match placing::placed(
                    t.tables, &mut begun, o, found, x, at, shown, m, numbers, bytes,
                ) {
                    Ok(r) => {
                        n = r.events;
                        o = r.open;
                    }
                    Err(r) => return Err(r.at(at)),
                }
                // An element with a model is open from here on.
                if ways::opens(t.tables.facts, x) {
                    o = o.start(t.tables.rows, x);
                }
                from = at;
                line = line.taken(after);
                at = after;
            }
            Next::End(x, after) => {
                match closing::end_tag(t.tables.facts, o, x, at, after, n, numbers, bytes) {
                    Ok(r) => {
                        n = r.events;
                        o = r.open;
                    }
                    Err(r) => return Err(r.at(at)),
                }
                line = line.taken(after);
                at = after;
            }
            Next::Passed(after) => {
                line = line.marked(d, at);
                at = after;
            }
        }
    }
    match closing::finish(t.tables.facts, o, at, n, numbers, bytes) {
        Ok(r) => Ok(r.events),
        Err(r) => Err(r.at(at)),
    }
}
