// Comparison of texts and words, folded to upper case.
#![tactic(auto)]

ghost use Rattle.std.specs.Prelude.{◌≡◌, ◌+◌, ◌≤◌, ◌<◌, length, eqb};
ghost use Rattle.rules.specs.Bytes.{fold, same_text};
ghost use Rattle.rules.specs.TypeFile.{is_word, is_cut, is_token_connector};

// Whether two bytes are equal, folded. Most that are, are equal as they stand.
fn is_same(x: u8, y: u8) -> bool
    ensures { result ≡ eqb (fold x) (fold y) }
{
    x == y || text::folded(x) == text::folded(y)
}

// Whether n bytes of s from a and n bytes of t from b are equal, folded.
pub fn same_text(s: &[u8], a: usize, t: &[u8], b: usize, n: usize) -> bool
    requires { (a < 4294967296) × (b < 4294967296) × (n < 4294967296) }
    ensures { result ≡ same_text s.now a t.now b n }
{
    for k in 0..n {
        if !is_same(text::byte(s, a + k), text::byte(t, b + k)) {
            return false;
        }
    }
    true
}

// Whether n bytes of s from a and n bytes of t from b are equal, folded. All of them are there, so that none is asked whether it still is
// within, as `same_text` does.
pub fn same_within(s: &[u8], a: usize, t: &[u8], b: usize, n: usize) -> bool
    requires { (a + n ≤ length s.now) × (b + n ≤ length t.now) }
    ensures { result ≡ same_text s.now a t.now b n }
{
    for k in 0..n {
        if !is_same(s[a + k], t[b + k]) {
            return false;
        }
    }
    true
}

// Whether the word from `at` to `end` is the given one, folded.
pub fn is_word(s: &[u8], at: usize, end: usize, word: &[u8]) -> bool
    requires { (at ≤ end) × (end < 4294967296) }
    ensures { result ≡ is_word s.now at end word.now }
{
    end - at == word.len() && same_text(s, at, word, 0, end - at)
}

// Whether the input ends within the word from `at` to `end`, which could have gone on as the given one.
pub fn is_cut(s: &[u8], at: usize, end: usize, word: &[u8]) -> bool
    requires { (at ≤ end) × (end < 4294967296) }
    ensures { result ≡ is_cut s.now at end word.now }
{
    s.len() <= end && end - at < word.len() && same_text(s, at, word, 0, end - at)
}

// Whether a byte may join the tokens of a group.
pub fn is_token_connector(b: u8) -> bool
    ensures { result ≡ is_token_connector b }
{
    b == b',' || b == b'|' || b == b'&'
}
