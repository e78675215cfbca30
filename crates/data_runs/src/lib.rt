// Runs of data: where one ends.
#![tactic(auto)]

ghost use Rattle.std.specs.Prelude.{◌≡◌, ◌+◌, ◌≤◌, ◌<◌, length};
ghost use Rattle.rules.specs.Settings.{least_name_length};
ghost use Rattle.rules.specs.Document.{declaration_piece, markup_piece};
ghost use Rattle.delimiters.specs.Classes.{special, Classes};
ghost use Rattle.rules_laws.specs.Runs.{any_piece, is_run, run_end};

// Whether a byte may begin something else than data: `<`, `&`, `]`, or byte 10.
fn is_special(classes: &[u8; 256], b: u8) -> bool
    requires { Classes classes.now }
    ensures { result ≡ special b }
{
    classes[usize::from(b)] % 2 == 1
}

// Whether `<!` at i goes on a run of data.
fn declaration_runs_on(s: &[u8], i: usize) -> bool
    requires { i < length s.now }
    ensures { result ≡ is_run (declaration_piece s.now i) }
{
    let b = text::byte(s, i + 2);
    if b == b'>' {
        return false;
    }
    if delimiters::dashes_at(s, i) {
        return false;
    }
    !delimiters::is_left_out(b)
}

// Whether `<` at i goes on a run of data. No tag is read for this: one ends the run even where it is refused.
fn markup_runs_on(s: &[u8], i: usize) -> bool
    requires { i < length s.now }
    ensures { result ≡ is_run (markup_piece least_name_length s.now i) }
{
    let b = text::byte(s, i + 1);
    if text::is_letter(b) {
        return false;
    }
    if delimiters::is_end_tag(s, i) {
        return false;
    }
    if b == b'!' {
        return declaration_runs_on(s, i);
    }
    b != b'?'
}

// Whether what stands at i goes on a run of data.
fn runs_on(s: &[u8], i: usize) -> bool
    requires { i < length s.now }
    ensures { result ≡ is_run (any_piece s.now i) }
{
    let b = text::byte(s, i);
    if b == b'<' {
        return markup_runs_on(s, i);
    }
    if delimiters::is_reference(s, i) {
        return false;
    }
    if delimiters::is_section_end(s, i) {
        return false;
    }
    b != b'\n'
}

// How many of the four bytes at i stand before a special one.
// Kept: the four tests stand out one by one, see `plain_end` (tried-speed).
fn plain_four(classes: &[u8; 256], s: &[u8], i: usize) -> usize
    requires { Classes classes.now × (i + 4 ≤ length s.now) }
    ensures { (result ≤ 4) × (run_end s.now (i + result) ≡ run_end s.now i) }
{
    if is_special(classes, s[i]) {
        return 0;
    }
    if is_special(classes, s[i + 1]) {
        return 1;
    }
    if is_special(classes, s[i + 2]) {
        return 2;
    }
    if is_special(classes, s[i + 3]) {
        return 3;
    }
    4
}

// How many of the eight bytes at i stand before a special one.
fn plain_eight(classes: &[u8; 256], s: &[u8], i: usize) -> usize
    requires { Classes classes.now × (i + 8 ≤ length s.now) }
    ensures { (result ≤ 8) × (run_end s.now (i + result) ≡ run_end s.now i) }
{
    let k = plain_four(classes, s, i);
    if k < 4 {
        return k;
    }
    let m = plain_four(classes, s, i + 4);
    m + 4
}

// The first special byte from `at` on, or the document's length: a run ends at the same place from there. Eight bytes a turn, while
// there are as many.
fn plain_end(classes: &[u8; 256], s: &[u8], at: usize) -> usize
    requires { Classes classes.now × (at ≤ length s.now) }
    ensures { (at ≤ result) × (result ≤ length s.now) × (run_end s.now result ≡ run_end s.now at) }
{
    let mut i = at;
    // Kept: eight bytes a turn. One a turn took twice as long, `position` nearly three times (tried-speed).
    while i + 8 <= s.len() {
        let k = plain_eight(classes, s, i);
        i += k;
        if k < 8 {
            return i;
        }
    }
    for j in i..s.len() {
        if is_special(classes, s[j]) {
            return j;
        }
    }
    s.len()
}

// Where the run of data that goes on at `at` ends.
pub fn run_end(classes: &[u8; 256], s: &[u8], at: usize) -> usize
    requires { Classes classes.now × (at ≤ length s.now) }
    ensures { result ≡ run_end s.now at }
{
    let mut i = plain_end(classes, s, at);
    // Kept: `i` goes on to the next special byte, so the turns are no count (plainer).
    while i < s.len() {
        if !runs_on(s, i) {
            return i;
        }
        i = plain_end(classes, s, i + 1);
    }
    i
}
