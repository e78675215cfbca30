// The static library for C: an export for each call of the crate sgml, with its clauses. `include/sgml.h` is the manual of the calls.
#![tactic(auto)]

ghost use Rattle.rules.specs.Settings.{settings};
ghost use Rattle.rules.specs.Calls.{JudgedNumbers, ReadNumbers, ListedNumbers};
ghost use Rattle.rules.specs.Batch.{BatchNumbers};
ghost use Rattle.stretches.specs.Fit.{batch_of};

use layout::ANSWER;

// The type judge.
#[unsafe(no_mangle)]
pub extern "C" fn sgml_judge_abi9(
    type_file: &[u8],
    buffer: &mut [u8],
    answer: &mut [u32; ANSWER],
    name_length: u32,
    edition: u32,
) -> u32
    ensures { JudgedNumbers (settings name_length edition) type_file.now buffer.old result answer.new buffer.new }
{
    sgml::sgml_judge(type_file, buffer, answer, name_length, edition)
}

// The document reader.
#[unsafe(no_mangle)]
pub extern "C" fn sgml_read_abi9(
    type_file: &[u8],
    document: &[u8],
    buffer: &mut [u8],
    answer: &mut [u32; ANSWER],
    name_length: u32,
    edition: u32,
) -> u32
    ensures { ReadNumbers (settings name_length edition) type_file.now document.now buffer.old result answer.new buffer.new }
{
    sgml::sgml_read(type_file, document, buffer, answer, name_length, edition)
}

// The attributes of a type.
#[unsafe(no_mangle)]
pub extern "C" fn sgml_attributes_abi9(
    type_file: &[u8],
    buffer: &mut [u8],
    answer: &mut [u32; ANSWER],
    name_length: u32,
    edition: u32,
) -> u32
    ensures { ListedNumbers (settings name_length edition) type_file.now buffer.old result answer.new buffer.new }
{
    sgml::sgml_attributes(type_file, buffer, answer, name_length, edition)
}

// The documents of a batch.
#[unsafe(no_mangle)]
pub extern "C" fn sgml_read_batch_abi9(
    type_file: &[u8],
    string: &[u8],
    starts: &[usize],
    lengths: &[usize],
    buffer: &mut [u8],
    froms: &[usize],
    sizes: &[usize],
    answers: &mut [u32],
    answer: &mut [u32; ANSWER],
    name_length: u32,
    edition: u32,
) -> u32
    ensures { BatchNumbers (settings name_length edition) type_file.now string.now (batch_of starts.now lengths.now froms.now sizes.now)
        buffer.old answers.old result answer.new answers.new buffer.new }
{
    sgml::sgml_read_batch(
        type_file,
        string,
        starts,
        lengths,
        buffer,
        froms,
        sizes,
        answers,
        answer,
        name_length,
        edition,
    )
}
