// Many documents under one type in one call (paper 02, request five). The type is judged once, and its tables
// are filled once; then each document is ordered with the verdict on the type, and read into its own stretch
// of the buffer.
#![tactic(auto)]

ghost use Rattle.std.specs.Prelude.{◌≡◌, ◌+◌, ◌*◌, ◌≤◌, ◌<◌, length, replicate};
ghost use Rattle.rules.specs.Lent.{Lent, zeroed};
ghost use Rattle.rules.specs.Settings.{settings};
ghost use Rattle.rules.specs.Judge.{refusal};
ghost use Rattle.rules.specs.Batch.{Unfit, AllRead, Batched, answer_width, batch_limit};
ghost use Rattle.rules.specs.Calls.{answer_numbers};
ghost use Rattle.text.specs.Refusal.{number_of};
ghost use Rattle.layout.specs.Sizes.{FACTS, INDEX, LISTS, MEMBERS, PLACES, ROWS};
ghost use Rattle.inputs.specs.Checks.{settings_of};
ghost use Rattle.stretches.specs.Fit.{batch_of};
ghost use Rattle.one_document.specs.Answer.{answer_of};
ghost use Rattle.answer_numbers.specs.Fits.{AnswerFits};
ghost use Rattle.batch_parts.specs.Ready.{Ready, ReadyFor};
ghost use Rattle.batch_laws.specs.Turns.{replaced};

use inputs::Settings;
use layout::{ANSWER, ELEMENTS, FACTS, INDEX, LISTS, MEMBERS, PLACES, RECORDS, ROWS};
use one_document::Answer;
use pieces::Type;
use text::Refusal;
use type_judge::TypeFault;
use type_stage::{Refused, Stage};

// The documents of a batch: parts of one string, where each starts and how long it is, and its stretch of the buffer.
#[derive(Clone, Copy)]
struct Parts<'a> {
    string: &'a [u8],
    starts: &'a [usize],
    lengths: &'a [usize],
    froms: &'a [usize],
    sizes: &'a [usize],
}

// The six numbers of the answer to the i-th document.
fn put_answer(answers: &mut [u32], i: usize, a: Answer)
    requires { AnswerFits a × (i < batch_limit) × (answer_width * i + answer_width ≤ length answers.old) }
    ensures { answers.new ≡ replaced answers.old (answer_numbers (answer_of a)) (answer_width * i) answer_width }
{
    let six = answer_numbers::numbers_read(a);
    let k = ANSWER * i;
    let e = k + ANSWER;
    numbers::put_numbers(&mut answers[k..e], &six, ANSWER);
}

// All documents in turn, by lists that are fit.
fn read_parts(g: Stage, t: Type, p: Parts, bytes: &mut [u8], answers: &mut [u32])
    requires ready { ReadyFor t g }
    requires fact { Unfit (batch_of p.starts.now p.lengths.now p.froms.now p.sizes.now) (length answers.old) (length bytes.old) → ⊥ }
    ensures { AllRead Lent.bytes (settings t.entry.long t.entry.edition) t.entry.file.now p.entry.string.now
        (batch_of p.entry.starts.now p.entry.lengths.now p.entry.froms.now p.entry.sizes.now) bytes.old answers.new bytes.new }
{
    for i in 0..p.starts.len() {
        let from = p.froms[i];
        let end = from + p.sizes[i];
        let a = batch_parts::read_part(
            g,
            t,
            p.string,
            p.starts[i],
            p.lengths[i],
            &mut bytes[from..end],
        );
        put_answer(answers, i, a);
    }
}

// The tables of a type, filled once for all documents.
#[derive(Drop)]
struct Tables {
    elements: [u32; RECORDS],
    index: [u8; INDEX],
    rows: [u8; ROWS],
    places: [u8; PLACES],
    facts: [u8; FACTS],
    members: [u8; MEMBERS],
    lists: [u16; LISTS],
}

// The type file is judged, and where it is accepted its tables are filled. All of them are 0 before.
fn prepared(c: Settings, s: &[u8], t: &mut Tables) -> Stage
    requires lists_value { (t.old.lists ≡ replicate LISTS 0) × (t.old.index ≡ replicate INDEX 0) × (t.old.members ≡ replicate MEMBERS 0) }
    requires rows_value { (t.old.rows ≡ replicate ROWS 0) × (t.old.places ≡ replicate PLACES 0) × (t.old.facts ≡ replicate FACTS 0) }
    ensures { Ready (settings_of c) s.now t.new.elements t.new.index t.new.rows t.new.places t.new.facts t.new.members t.new.lists result }
{
    let mut heads = [0u16; ELEMENTS];
    let n = type_stage::judged(c, s, &mut t.elements, &mut heads)?;
    full_tables::fill(
        c.name_length,
        s,
        &t.elements,
        &heads,
        n,
        &mut t.lists,
        &mut t.index,
        &mut t.rows,
        &mut t.places,
        &mut t.facts,
        &mut t.members,
    );
    Ok(n)
}

// The documents of a batch whose lists are fit, under what the type is judged to be.
fn read_all(c: Settings, s: &[u8], p: Parts, bytes: &mut [u8], answers: &mut [u32])
    requires { Unfit (batch_of p.starts.now p.lengths.now p.froms.now p.sizes.now) (length answers.old) (length bytes.old) → ⊥ }
    ensures { AllRead Lent.bytes (settings_of c) s.now p.entry.string.now
        (batch_of p.entry.starts.now p.entry.lengths.now p.entry.froms.now p.entry.sizes.now) bytes.old answers.new bytes.new }
{
    let mut t = Tables {
        elements: [0; RECORDS],
        index: [0; INDEX],
        rows: [0; ROWS],
        places: [0; PLACES],
        facts: [0; FACTS],
        members: [0; MEMBERS],
        lists: [0; LISTS],
    };
    let g = prepared(c, s, &mut t);
    let under = one_document::under(
        c,
        s,
        &t.elements,
        &t.index,
        &t.rows,
        &t.places,
        &t.facts,
        &t.members,
        &t.lists,
    );
    read_parts(g, under, p, bytes, answers);
}

// The whole call is refused for its settings or its lists, as the type is, at 0: all of the buffer is zeroed.
fn refused(why: Refusal, bytes: &mut [u8]) -> Answer
    ensures answer { answer_of result ≡ refusal (number_of why) 0 0 0 }
    ensures answer_fits { AnswerFits result }
    ensures buffer_zero { bytes.new ≡ zeroed bytes.old }
{
    bytes.fill(0);
    Err(Refused::InType(TypeFault::Malformed(why.at(0))))
}

// Reads the documents of a batch under a type file and the settings c: the parts of the string that start at
// `starts` and have these lengths, each into its own stretch of the buffer. `answers` gets the six numbers of
// the answer to each. Settings that are not offered, and lists that are unfit, refuse the whole call: the
// buffer is zeroed, and the answers are as they were.
pub fn read_batch(
    c: Settings,
    s: &[u8],
    string: &[u8],
    starts: &[usize],
    lengths: &[usize],
    froms: &[usize],
    sizes: &[usize],
    bytes: &mut [u8],
    answers: &mut [u32],
) -> Answer
    ensures batched { Batched Lent.bytes (settings_of c) s.now string.now (batch_of starts.now lengths.now froms.now sizes.now)
        bytes.old answers.old (answer_of result) answers.new bytes.new }
    ensures answer_fits { AnswerFits result }
{
    if !inputs::is_offered(c) {
        return refused(Refusal::Settings, bytes);
    }
    if !stretches::are_fit(starts, lengths, froms, sizes, answers.len(), bytes.len()) {
        return refused(Refusal::Batch, bytes);
    }
    let p = Parts {
        string,
        starts,
        lengths,
        froms,
        sizes,
    };
    read_all(c, s, p, bytes, answers);
    Ok(starts.len())
}
