// The type judge: a type file and a lent buffer in, element records or one refusal out.
#![tactic(auto)]

ghost use Rattle.std.specs.Prelude.{◌≡◌, ◌≤◌, length, replicate};
ghost use Rattle.rules.specs.Lent.{numbers, bytes};
ghost use Rattle.rules.specs.Judge.{Legible, Judged};
ghost use Rattle.rules.specs.Bytes.{element_limit, type_limit};
ghost use Rattle.inputs.specs.Checks.{settings_of};
ghost use Rattle.type_judge.specs.declared.TypeFault.TheVariants.{Malformed};
ghost use Rattle.type_judge.specs.Decides.{answer_of, Decides};

use element_records::Clash;
use inputs::Settings;
use layout::{ELEMENTS, NUMBER, RECORD, RECORDS, TYPE_LIMIT};
use text::{Fault, Refusal};

// Why a type file is refused: at a position, or for a pair of places of a model that is ambiguous.
#[derive(Clone, Copy)]
pub enum TypeFault {
    Malformed(Fault),
    Ambiguous(Clash),
}

impl From<Fault> for TypeFault {
    ghost from_gives = { λ f r. r ≡ Malformed f };

    fn from(f: Fault) -> TypeFault {
        TypeFault::Malformed(f)
    }
}

// The judge's answer: how many records there are, or why the type is refused.
pub type Verdict = Result<usize, TypeFault>;

// The verdict on a type file whose length and bytes were looked at, where the lent buffer has room for so many numbers: if
// accepted, the elements are recorded in `elements`, and `heads`, which is all 0, gets the heads of their lists; what stands
// behind the records, and in all of both on refusal, is not decided. Nor is the verdict where a byte is not allowed or the settings are not offered.
pub fn decide_legible(
    c: Settings,
    s: &[u8],
    room: usize,
    elements: &mut [u32; RECORDS],
    heads: &mut [u16; ELEMENTS],
) -> Verdict
    requires { (length s.now ≤ type_limit) × (heads.old ≡ replicate element_limit 0) }
    ensures { Legible (settings_of c) s.now → Decides (settings_of c) s.now room elements.new heads.new result }
{
    let p = type_file::file_read(c.name_length, s, elements, heads)?;
    if let Some(at) = p.repeated {
        return Err(TypeFault::Malformed(Refusal::Repeated.at(at)));
    }
    if let Some(clash) = p.clash {
        return Err(TypeFault::Ambiguous(clash));
    }
    if room < RECORD * p.count {
        return Err(TypeFault::Malformed(Refusal::NoRoom.at(0)));
    }
    Ok(p.count)
}

// The verdict on any type file under any settings: number 24 comes first, then 1 and 2. Behind the records, and on refusal,
// what `elements` holds is not decided, nor on refusal what `heads` does, which is all 0 before.
pub fn decide(
    c: Settings,
    s: &[u8],
    room: usize,
    elements: &mut [u32; RECORDS],
    heads: &mut [u16; ELEMENTS],
) -> Verdict
    requires { heads.old ≡ replicate element_limit 0 }
    ensures { Decides (settings_of c) s.now room elements.new heads.new result }
{
    if !inputs::is_offered(c) {
        return Err(TypeFault::Malformed(Refusal::Settings.at(0)));
    }
    if TYPE_LIMIT < s.len() {
        return Err(TypeFault::Malformed(Refusal::TooLong.at(0)));
    }
    let a = text::allowed_end(s);
    if a < s.len() {
        return Err(TypeFault::Malformed(Refusal::Byte.at(a)));
    }
    decide_legible(c, s, room, elements, heads)
}

// Judges a type file under the settings c. The buffer gets six numbers for each element, or is zeroed.
pub fn judge(c: Settings, s: &[u8], buffer: &mut [u32]) -> Verdict
    ensures { Judged numbers (settings_of c) s.now buffer.old (answer_of result) buffer.new }
{
    let mut elements = [0u32; RECORDS];
    let mut heads = [0u16; ELEMENTS];
    let v = decide(c, s, buffer.len(), &mut elements, &mut heads);
    if let Ok(n) = v {
        element_records::whole(elements);
        numbers::put_numbers(buffer, &elements, RECORD * n);
    } else {
        buffer.fill(0);
    }
    v
}

// Judges a type file under the settings c. The buffer of bytes gets six numbers of four bytes for each element, or is zeroed.
// Kept: the twin of `judge` (plainer). They share `decide`, and `fill` of any slice; what is left differs in the room,
// in how numbers are written and in the rules' word for the buffer, which a trait for `u32` and `u8` would say again.
pub fn judge_to_bytes(c: Settings, s: &[u8], buffer: &mut [u8]) -> Verdict
    ensures { Judged bytes (settings_of c) s.now buffer.old (answer_of result) buffer.new }
{
    let mut elements = [0u32; RECORDS];
    let mut heads = [0u16; ELEMENTS];
    let v = decide(c, s, buffer.len() / NUMBER, &mut elements, &mut heads);
    if let Ok(n) = v {
        element_records::whole(elements);
        numbers::put_bytes(buffer, &elements, RECORD * n);
    } else {
        buffer.fill(0);
    }
    v
}
