// One part of a string of documents, read into its stretch of the buffer under a type that has been judged.
#![tactic(auto)]

ghost use Rattle.std.specs.Prelude.{[]};
ghost use Rattle.rules.specs.Lent.{Lent};
ghost use Rattle.rules.specs.Settings.{settings};
ghost use Rattle.rules.specs.Batch.{PartAs};
ghost use Rattle.one_document.specs.Answer.{answer_of, Answers};
ghost use Rattle.answer_numbers.specs.Fits.{AnswerFits};
ghost use Rattle.batch_parts.specs.Ready.{ReadyFor};

use one_document::Answer;
use pieces::Type;
use type_stage::{Refused, Stage};

// What the document d comes to under a type that is judged, and whose tables are filled if it is accepted. A refusal zeroes nothing yet.
fn followed(g: Stage, t: Type, d: &[u8], bytes: &mut [u8]) -> Answer
    requires { ReadyFor t g }
    ensures { Answers (settings t.entry.long t.entry.edition) t.entry.file.now d.now [] [] bytes.old bytes.new result }
{
    type_stage::in_order(g, d)?;
    one_document::follow(t, d, bytes).map_err(Refused::InDocument)
}

// The part of the string that starts here and is so long, read into its stretch of the buffer.
pub fn read_part(
    g: Stage,
    t: Type,
    string: &[u8],
    start: usize,
    size: usize,
    bytes: &mut [u8],
) -> Answer
    requires { ReadyFor t g }
    ensures part_as { PartAs Lent.bytes (settings t.entry.long t.entry.edition) t.entry.file.now string.now start size
        bytes.old (answer_of result) bytes.new }
    ensures answer_fits { AnswerFits result }
{
    if !stretches::ends_within(start, size, string.len()) {
        bytes.fill(0);
        return Err(type_stage::too_long(g));
    }
    let v = followed(g, t, &string[start..start + size], bytes);
    one_document::settled(v, bytes)
}
