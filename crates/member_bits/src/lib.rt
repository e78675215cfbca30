// Members of an element's "&" groups as bits, from the first on: those of the first 64 in one number, the others in a second. There are at most 96.
#![tactic(auto)]

ghost use Rattle.std.specs.Prelude.{◌≡◌, Bool, false, ◌&&◌, ◌||◌, not, ℕ, ◌+◌, ◌≤◌, ◌<◌};
ghost use Rattle.std.specs.Prelude.{IfSome, eqb, ltb, leb};
ghost use Rattle.rules.specs.Bytes.{GRPGTCNT};
ghost use Rattle.member_bits.specs.Having.{Has, IsNone, First, number_of, Lowest};

use layout::GRPGTCNT;
use std::ops::{BitAnd, BitOr, Sub};

// Sixty-four members in one number, the others in a second.
// Kept: two fields and a test of 64 in `with`, `has` and `above`, where an array would be indexed by the
// member's half: (plainer) a set stays in two registers.
#[derive(Clone, Copy)]
pub struct Bits {
    pub low: usize,
    pub high: usize,
}

// The lowest bit of y that is set, from 0 on.
fn lowest(y: usize) -> usize
    requires { 1 ≤ y }
    ensures { (result < 64) × Lowest y result }
{
    y.trailing_zeros() as usize
}

impl Bits {
    // No member.
    pub fn none() -> Bits
        ensures { Has result (λ (n : ℕ). false) }
    {
        Bits { low: 0, high: 0 }
    }

    // The k members from the member `from` on, as far as there are so many.
    pub fn range(from: usize, k: usize) -> Bits
        requires { (from ≤ 255) × (k ≤ 255) }
        ensures { Has result (λ (n : ℕ). leb from n && ltb n (from + k)) }
    {
        let mut b = Bits::none();
        for j in 0..k {
            let h = from + j;
            if 1 <= h && h <= GRPGTCNT {
                b = b.with(h);
            }
        }
        b
    }

    // These members, and the member h.
    pub fn with(self, h: usize) -> Bits
        requires { (1 ≤ h) × (h ≤ GRPGTCNT) }
        ensures { (f : ℕ → Bool) → Has self f → Has result (λ (n : ℕ). f n || eqb n h) }
    {
        if h <= 64 {
            Bits {
                low: self.low | (1 << (h - 1)),
                ..self
            }
        } else {
            Bits {
                high: self.high | (1 << (h - 65)),
                ..self
            }
        }
    }

    // Those above the member x.
    pub fn above(self, x: usize) -> Bits
        requires { x ≤ GRPGTCNT }
        ensures { (f : ℕ → Bool) → Has self f → Has result (λ (n : ℕ). f n && ltb x n) }
    {
        if x < 64 {
            Bits {
                low: (self.low >> x) << x,
                ..self
            }
        } else {
            Bits {
                low: 0,
                high: (self.high >> (x - 64)) << (x - 64),
            }
        }
    }

    // Whether the member h is one.
    pub fn has(self, h: usize) -> bool
        requires { (1 ≤ h) × (h ≤ GRPGTCNT) }
        ensures { (f : ℕ → Bool) → Has self f → result ≡ f h }
    {
        if h <= 64 {
            (self.low >> (h - 1)) % 2 == 1
        } else {
            (self.high >> (h - 65)) % 2 == 1
        }
    }

    // Whether there is none.
    pub fn is_none(self) -> bool
        ensures { IsNone self result }
    {
        self.low | self.high == 0
    }

    // The first.
    pub fn first(self) -> Option<usize>
        ensures small { number_of result ≤ 128 }
        ensures some { IfSome result (λ (x : ℕ). 1 ≤ x) }
        ensures value { (f : ℕ → Bool) → Has self f → First f (number_of result) }
    {
        if self.low != 0 {
            Some(lowest(self.low) + 1)
        } else if self.high != 0 {
            Some(lowest(self.high) + 65)
        } else {
            None
        }
    }
}

// The members of either.
impl BitOr for Bits {
    type Output = Bits;

    ghost bitor_gives = { λ a b r. (f k : ℕ → Bool) → Has a f → Has b k → Has r (λ (n : ℕ). f n || k n) };

    fn bitor(self, rhs: Bits) -> Bits {
        Bits {
            low: self.low | rhs.low,
            high: self.high | rhs.high,
        }
    }
}

// The members of both.
impl BitAnd for Bits {
    type Output = Bits;

    ghost bitand_gives = { λ a b r. (f k : ℕ → Bool) → Has a f → Has b k → Has r (λ (n : ℕ). f n && k n) };

    fn bitand(self, rhs: Bits) -> Bits {
        Bits {
            low: self.low & rhs.low,
            high: self.high & rhs.high,
        }
    }
}

// The members of the first that are not of the second.
impl Sub for Bits {
    type Output = Bits;

    ghost sub_gives = { λ a b r. (f k : ℕ → Bool) → Has a f → Has b k → Has r (λ (n : ℕ). f n && not (k n)) };

    fn sub(self, rhs: Bits) -> Bits {
        Bits {
            low: self.low & (self.low ^ rhs.low),
            high: self.high & (self.high ^ rhs.high),
        }
    }
}
