// Which members of the "&" groups of the open elements have begun.
//
// `begun` has three numbers for each level, the document's first, then those of the open elements: one bit
// for each member, from the first on.
#![tactic(auto)]

ghost use Rattle.std.specs.Prelude.{◌≤◌};
ghost use Rattle.rules.specs.Bytes.{TAGLVL};
ghost use Rattle.member_laws.specs.Members.{begun_at};
ghost use Rattle.member_bits.specs.Having.{Has};
ghost use Rattle.begun_bits.specs.Levels.{Puts};

use layout::{BEGUN, BEGUN_WORDS};
use member_bits::Bits;

// The members of the level that have begun.
pub fn begun_at(begun: &[u32; BEGUN], level: usize) -> Bits
    requires { level ≤ TAGLVL }
    ensures { Has result (begun_at begun.now level) }
{
    let i = level * BEGUN_WORDS;
    let a = numbers::widened(begun[i]);
    let b = numbers::widened(begun[i + 1]);
    let c = numbers::widened(begun[i + 2]);
    Bits {
        low: a + b * 4294967296,
        high: c,
    }
}

// The members b of the level have begun, and no others.
pub fn put(begun: &mut [u32; BEGUN], level: usize, b: Bits)
    requires { level ≤ TAGLVL }
    ensures { Puts level b begun.old begun.new }
{
    let i = level * BEGUN_WORDS;
    begun[i] = (b.low % 4294967296) as u32;
    begun[i + 1] = (b.low / 4294967296 % 4294967296) as u32;
    begun[i + 2] = (b.high % 4294967296) as u32;
}
