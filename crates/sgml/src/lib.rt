// The calls for C, on numbers and byte slices. The crate sgml_c exports them.
#![tactic(auto)]

ghost use Rattle.std.specs.Prelude.{◌≡◌};
ghost use Rattle.rules.specs.Settings.{settings};
ghost use Rattle.rules.specs.Calls.{answer_numbers, JudgedNumbers, ReadNumbers, ListedNumbers};
ghost use Rattle.rules.specs.Batch.{BatchNumbers};
ghost use Rattle.stretches.specs.Fit.{batch_of};
ghost use Rattle.inputs.specs.Checks.{settings_of};
ghost use Rattle.type_judge.specs.Decides.{answer_of};
ghost use Rattle.sgml.specs.Fits.{VerdictFits};

use inputs::Settings;
use layout::ANSWER;
use type_judge::Verdict;
use type_stage::Refused;

// The settings of a call for C.
fn chosen(name_length: u32, edition: u32) -> Settings
    ensures { settings_of result ≡ settings name_length edition }
{
    Settings {
        name_length: numbers::widened(name_length),
        edition: numbers::widened(edition),
    }
}

// The six numbers of the judge's answer.
fn numbers_of(v: Verdict) -> [u32; ANSWER]
    requires { VerdictFits v }
    ensures { result ≡ answer_numbers (answer_of v) }
{
    answer_numbers::numbers_read(v.map_err(Refused::InType))
}

// The type judge for C. `name_length` is how long a name may be, `edition` by which rule record ends are read, which no type asks; `buffer`
// gets six numbers of four bytes for each element, or is zeroed; `answer` gets the refusal number, input, position, the two places and the
// count. The refusal number is returned as well, so that a compiler can say where it is left unread.
pub fn sgml_judge(
    type_file: &[u8],
    buffer: &mut [u8],
    answer: &mut [u32; ANSWER],
    name_length: u32,
    edition: u32,
) -> u32
    ensures { JudgedNumbers (settings name_length edition) type_file.now buffer.old result answer.new buffer.new }
{
    let v = type_judge::judge_to_bytes(chosen(name_length, edition), type_file, buffer);
    let six = numbers_of(v);
    *answer = six;
    six[0]
}

// The document reader for C. `name_length` is how long a name may be, `edition` by which rule record ends are read; `buffer` gets five
// numbers of four bytes for each event, or is zeroed; `answer` gets the refusal number, input, position, the two places and the count. The
// refusal number is returned as well.
pub fn sgml_read(
    type_file: &[u8],
    document: &[u8],
    buffer: &mut [u8],
    answer: &mut [u32; ANSWER],
    name_length: u32,
    edition: u32,
) -> u32
    ensures { ReadNumbers (settings name_length edition) type_file.now document.now buffer.old result answer.new buffer.new }
{
    let a = document_reader::read_to_bytes(
        chosen(name_length, edition),
        type_file,
        document,
        buffer,
    );
    let six = answer_numbers::numbers_read(a);
    *answer = six;
    six[0]
}

// The attributes of a type for C. `name_length` is how long a name may be, `edition` by which rule record ends are read, which no type asks;
// `buffer` gets nine numbers of four bytes for each attribute, or is zeroed; `answer` gets the refusal number, input, position, the two
// places and the count. The refusal number is returned as well.
pub fn sgml_attributes(
    type_file: &[u8],
    buffer: &mut [u8],
    answer: &mut [u32; ANSWER],
    name_length: u32,
    edition: u32,
) -> u32
    ensures { ListedNumbers (settings name_length edition) type_file.now buffer.old result answer.new buffer.new }
{
    let v = attribute_records::list_to_bytes(chosen(name_length, edition), type_file, buffer);
    let six = numbers_of(v);
    *answer = six;
    six[0]
}

// The documents of a batch for C: parts of one string under one type. `starts` and `lengths` say where each part starts and how many bytes it has, `froms` and
// `sizes` likewise its stretch of `buffer`, in bytes; `answers` gets the six numbers of the answer to each, and its stretch five numbers of four bytes for each
// event, or is zeroed. `answer` gets the six numbers of the answer to the whole call. Its number is returned as well.
pub fn sgml_read_batch(
    type_file: &[u8],
    string: &[u8],
    starts: &[usize],
    lengths: &[usize],
    buffer: &mut [u8],
    froms: &[usize],
    sizes: &[usize],
    answers: &mut [u32],
    answer: &mut [u32; ANSWER],
    name_length: u32,
    edition: u32,
) -> u32
    ensures { BatchNumbers (settings name_length edition) type_file.now string.now (batch_of starts.now lengths.now froms.now sizes.now)
        buffer.old answers.old result answer.new answers.new buffer.new }
{
    let a = batch::read_batch(
        chosen(name_length, edition),
        type_file,
        string,
        starts,
        lengths,
        froms,
        sizes,
        buffer,
        answers,
    );
    let six = answer_numbers::numbers_read(a);
    *answer = six;
    six[0]
}
