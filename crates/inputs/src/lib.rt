// Checks on what a call is given, before it is read: the settings are supported, neither input is too long,
// and every byte is allowed.
#![tactic(auto)]

ghost use Rattle.std.specs.Prelude.{◌≡◌};
ghost use Rattle.rules.specs.Bytes.{allowed};
ghost use Rattle.rules.specs.Settings.{is_offered};
ghost use Rattle.inputs.specs.Checks.{settings_of, is_clean, failing};

use layout::{LEAST_NAME_LENGTH, MOST_NAME_LENGTH};

// What the caller chooses: how long a name may be, and by which edition record ends are read.
#[derive(Clone, Copy)]
pub struct Settings {
    pub name_length: usize,
    pub edition: usize,
}

// Whether a call takes these settings: the length that names may have is one from 8 to 32, the edition 1 or 2.
#[tactic(auto, unfolding(rules::specs::Settings::is_offered))]
pub fn is_offered(c: Settings) -> bool
    ensures { result ≡ is_offered (settings_of c) }
{
    LEAST_NAME_LENGTH <= c.name_length
        && c.name_length <= MOST_NAME_LENGTH
        && 1 <= c.edition
        && c.edition <= 2
}

// 1 for a byte that is not allowed, else 0.
fn unfit(b: u8) -> u8
    ensures { result ≡ failing (allowed b) }
{
    u8::from(!text::is_allowed(b))
}

// Whether all bytes are allowed.
// Kept: a search that stops at the first that is not looks at one byte at a time, which took three times as long
// (tried-speed).
pub fn all_allowed(d: &[u8]) -> bool
    ensures { result ≡ is_clean d.now }
{
    let mut bad = 0u8;
    for b in d {
        bad = bad.max(unfit(*b));
    }
    bad == 0
}
