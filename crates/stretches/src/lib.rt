// Stretches of a string or of a buffer, by start and length: whether one ends within it, whether two share a
// number, and whether the lists of a batch fit.
//
// No start and length are added before their sum is known to be within: it may be larger than a number can
// be.
#![tactic(auto)]

ghost use Rattle.std.specs.Prelude.{◌≡◌, ◌+◌, ◌<◌, leb, length};
ghost use Rattle.stretches.specs.Fit.{Apart, ApartFrom, AllApart, AllWithin, Fits};

use layout::{ANSWER, DOCUMENTS};

// Whether a stretch ends within so many.
pub fn ends_within(from: usize, size: usize, room: usize) -> bool
    ensures { result ≡ leb (from + size) room }
{
    from <= room && size <= room - from
}

// Whether two stretches share no number. One without numbers shares none.
fn are_apart(from: usize, size: usize, other: usize, its: usize) -> bool
    ensures { Apart from size other its result }
{
    if size == 0 || its == 0 {
        return true;
    }
    ends_within(from, size, other) || ends_within(other, its, from)
}

// Whether all stretches end within so many.
fn all_within(froms: &[usize], sizes: &[usize], room: usize) -> bool
    requires { length sizes.now ≡ length froms.now }
    ensures { AllWithin froms.now sizes.now room (length froms.now) result }
{
    for i in 0..froms.len() {
        if !ends_within(froms[i], sizes[i], room) {
            return false;
        }
    }
    true
}

// Whether the i-th stretch shares no number with those before it.
fn is_apart(froms: &[usize], sizes: &[usize], i: usize) -> bool
    requires { (length sizes.now ≡ length froms.now) × (i < length froms.now) }
    ensures { ApartFrom froms.now sizes.now i i result }
{
    for j in 0..i {
        if !are_apart(froms[j], sizes[j], froms[i], sizes[i]) {
            return false;
        }
    }
    true
}

// Whether no two stretches share a number.
fn all_apart(froms: &[usize], sizes: &[usize]) -> bool
    requires { length sizes.now ≡ length froms.now }
    ensures { AllApart froms.now sizes.now (length froms.now) result }
{
    for i in 0..froms.len() {
        if !is_apart(froms, sizes, i) {
            return false;
        }
    }
    true
}

// Whether the lists of a batch can be read by: so many numbers are lent for the answers, and the lent buffer has so much room.
pub fn are_fit(
    starts: &[usize],
    lengths: &[usize],
    froms: &[usize],
    sizes: &[usize],
    answers: usize,
    room: usize,
) -> bool
    ensures { Fits starts.now lengths.now froms.now sizes.now answers room result }
{
    let n = starts.len();
    if DOCUMENTS < n {
        return false;
    }
    if lengths.len() != n {
        return false;
    }
    if froms.len() != n {
        return false;
    }
    if sizes.len() != n {
        return false;
    }
    if answers != ANSWER * n {
        return false;
    }
    if !all_within(froms, sizes, room) {
        return false;
    }
    all_apart(froms, sizes)
}
