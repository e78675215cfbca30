// What separates the parameters of a declaration: separators and comments, to the next byte of another kind;
// and where a comment ends.
#![tactic(auto)]

ghost use Rattle.std.specs.Prelude.{◌≡◌, true, ◌+◌, ◌≤◌, ◌<◌, length, drop};
ghost use Rattle.rules.specs.TypeFile.{at_dashes, before_dashes, comment_declaration, gap};
ghost use Rattle.text.specs.Refusal.{reached};
ghost use Rattle.text.specs.Words.{gap_on, behind_dash};
ghost use Rattle.gaps.specs.Unfit.{unfit_at};

use text::{Fault, Reading, Refusal};

// The first `--` from `at` on, or the input's length.
fn to_dashes(s: &[u8], at: usize) -> usize
    requires { at ≤ length s.now }
    ensures { result ≡ at + before_dashes (drop at s.now) }
{
    for i in at..s.len() {
        if text::at_dashes(s, i) {
            return i;
        }
    }
    s.len()
}

// How a gap goes on at `at`, where its next separators have ended: comments with separators between, to the next byte of another kind.
fn gap_on(s: &[u8], at: usize) -> Reading<usize>
    requires { at ≤ length s.now }
    ensures { reached result ≡ gap_on (length s.now) s.now at }
{
    let mut i = at;
    // Kept: a turn goes on behind a whole comment, so the turns are no count (plainer).
    while text::at_dashes(s, i) {
        let e = to_dashes(s, i + 2);
        if s.len() <= e {
            return Err(Refusal::Malformed.at(s.len()));
        }
        let after = e + 2;
        i = text::separators_end(s, after);
    }
    if text::byte(s, i) == b'%' {
        return Err(Refusal::LeftOut.at(i));
    }
    Ok(i)
}

// Separators and comments between parameters, to the next byte of another kind.
pub fn gap_end(s: &[u8], at: usize) -> Reading<usize>
    requires { at ≤ length s.now }
    ensures { reached result ≡ gap s.now at }
{
    gap_on(s, text::separators_end(s, at))
}

// The byte at i, or the one behind it where it is a "-".
fn behind_dash(s: &[u8], i: usize) -> usize
    requires { i ≤ length s.now }
    ensures { result ≡ behind_dash s.now i }
{
    if text::byte(s, i) == b'-' {
        return i + 1;
    }
    i
}

// The end of a comment declaration of which `<!` ends at `at`, where `--` stands: comments with separators between, then `>`. A "-"
// behind them could only open a further comment, so the byte after it is the unfit one.
pub fn comment_end(s: &[u8], at: usize) -> Reading<usize>
    requires { at_dashes s.now at ≡ true }
    ensures { reached result ≡ comment_declaration s.now at }
{
    let i = gap_on(s, at)?;
    if text::byte(s, i) == b'>' {
        return Ok(i + 1);
    }
    Err(Refusal::Malformed.at(behind_dash(s, i)))
}

// What cannot stand between parameters. A "-" at the input's end could still have opened a comment.
pub fn unfit_at(s: &[u8], i: usize) -> Fault
    requires { i ≤ length s.now }
    ensures { result ≡ unfit_at s.now i }
{
    let lone = text::byte(s, i) == b'-' && s.len() <= i + 1;
    Refusal::Malformed.at(if lone { s.len() } else { i })
}
