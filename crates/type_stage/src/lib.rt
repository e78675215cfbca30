// How far the judging of a type file gets: it is judged once, whatever documents are read under it.
//
// "1 type, 1 document, 2 type, 2 document; the type file's 3 to 8 ..": a document's 1 comes before the type's
// 2, and its 2 before what else the type is refused for. So the type's refusal is stored with its stage, and
// each document is ordered with it.
#![tactic(auto)]

ghost use Rattle.std.specs.Prelude.{◌≡◌, List, ℕ, replicate};
ghost use Rattle.rules.specs.Settings as rules;
ghost use Rattle.rules.specs.Bytes.{element_limit};
ghost use Rattle.inputs.specs.Checks.{settings_of};
ghost use Rattle.type_stage.specs.Stages.{Staged, PartRefused, OrderedAs, refused_by, is_unclean};

use inputs::Settings;
use layout::{DOCUMENT_LIMIT, ELEMENTS, RECORDS, TYPE_LIMIT};
use text::{Fault, Refusal};
use type_judge::TypeFault;

// Why a type is refused, by the stage at which that comes.
#[derive(Clone, Copy)]
pub enum Stopped {
    // Number 24 of the settings, or the type's 1: before anything of a document.
    Unread(Fault),
    // The type's 2: behind a document's 1.
    Unclean(Fault),
    // The type's 3 to 9, and 25: behind a document's 2.
    Judged(TypeFault),
}

// Where the type file stands once it is judged: it is accepted with so many elements, or stopped.
pub type Stage = Result<usize, Stopped>;

// Judges the type file s under the settings c: accepted with so many elements in `elements`, the heads of their lists in `heads`, which is all 0 before,
// or refused. On refusal what both hold is not decided.
// Kept: the tests of `type_judge::decide` again (plainer): here each refusal has its stage, there none has, so that a
// function of both would hand out a stage for the judge to drop.
pub fn judged(
    c: Settings,
    s: &[u8],
    elements: &mut [u32; RECORDS],
    heads: &mut [u16; ELEMENTS],
) -> Stage
    requires { heads.old ≡ replicate element_limit 0 }
    ensures { Staged (settings_of c) s.now elements.new heads.new result }
{
    if !inputs::is_offered(c) {
        return Err(Stopped::Unread(Refusal::Settings.at(0)));
    }
    if TYPE_LIMIT < s.len() {
        return Err(Stopped::Unread(Refusal::TooLong.at(0)));
    }
    let a = text::allowed_end(s);
    if a < s.len() {
        return Err(Stopped::Unclean(Refusal::Byte.at(a)));
    }
    type_judge::decide_legible(c, s, RECORDS, elements, heads).map_err(Stopped::Judged)
}

// Which of a type and a document is refused.
#[derive(Clone, Copy)]
pub enum Refused {
    InType(TypeFault),
    InDocument(Fault),
}

// The type's refusal where nothing of a document comes before it.
impl From<Stopped> for Refused {
    ghost from_gives = { λ x r. r ≡ refused_by x };

    fn from(x: Stopped) -> Refused {
        match x {
            Stopped::Unread(f) => Refused::InType(TypeFault::Malformed(f)),
            Stopped::Unclean(f) => Refused::InType(TypeFault::Malformed(f)),
            Stopped::Judged(t) => Refused::InType(t),
        }
    }
}

// A document that is too long: its 1 comes behind number 24 and the type's 1 alone. Of a stage that is no type file's nothing is decided.
pub fn too_long(g: Stage) -> Refused
    ensures { (c : rules.Settings) (s elements heads : List ℕ) → Staged c s elements heads g → PartRefused c s result }
{
    let document = Refused::InDocument(Refusal::TooLong.at(0));
    let Err(x) = g else {
        return document;
    };
    let Stopped::Unread(f) = x else {
        return document;
    };
    Refused::InType(TypeFault::Malformed(f))
}

// Whether the type's bytes are what it is refused for, or what comes before them.
fn is_unclean(g: Stage) -> bool
    ensures { result ≡ is_unclean g }
{
    matches!(g, Err(Stopped::Unread(_) | Stopped::Unclean(_)))
}

// The document d in its order with what was judged of the type: it is to be read under so many elements, or one of the two is refused. Of a stage that is no
// type file's nothing is decided.
pub fn in_order(g: Stage, d: &[u8]) -> Result<usize, Refused>
    ensures { (c : rules.Settings) (s elements heads : List ℕ) → Staged c s elements heads g → OrderedAs c s d.now g result }
{
    if DOCUMENT_LIMIT < d.len() {
        return Err(too_long(g));
    }
    if !is_unclean(g) && !inputs::all_allowed(d) {
        return Err(Refused::InDocument(Refusal::Byte.at(text::allowed_end(d))));
    }
    Ok(g?)
}
