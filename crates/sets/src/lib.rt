// Sets of numbers below 32, each the bits of one u32; a loop over the members of a set; its first member, and the set without it.
// Stays: a set is the u32 itself, not a struct with methods: pub contracts above, as `Finding` of `needs::find`, speak of the numbers in rows `[u32; 17]`.
#![tactic(auto)]

ghost use Rattle.std.specs.Prelude.{◌≡◌, ◌&&◌, ◌||◌, not, [], ◌∷◌, ℕ, ◌-◌, ◌<◌, eqb, leb, drop};
ghost use Rattle.std.specs.Iterator.{YieldsFirst, item_count};
ghost use Rattle.sets.specs.Inner.Sets.{member, members};

use std::marker::Model;

// The empty set.
pub fn none() -> u32
    ensures { members result ≡ [] }
{
    0
}

// The members of s, and a.
pub fn with(s: u32, a: usize) -> u32
    requires { a < 32 }
    ensures { (b : ℕ) → member result b ≡ (member s b || eqb a b) }
{
    s | (1u32 << a)
}

// The members that s and t share.
pub fn both(s: u32, t: u32) -> u32
    ensures { (b : ℕ) → member result b ≡ (member s b && member t b) }
{
    s & t
}

// The members of s and those of t.
pub fn either(s: u32, t: u32) -> u32
    ensures { (b : ℕ) → member result b ≡ (member s b || member t b) }
{
    s | t
}

// The members of s that t doesn't have.
pub fn without(s: u32, t: u32) -> u32
    ensures { (b : ℕ) → member result b ≡ (member s b && not (member t b)) }
{
    s ^ (s & t)
}

// Each member of s, k more; those that would come to 32 or above are lost.
pub fn moved(s: u32, k: usize) -> u32
    requires { k < 32 }
    ensures { (b : ℕ) → b < 32 → member result b ≡ (leb k b && member s (b - k)) }
{
    s << k
}

// Whether a is in s.
pub fn has(s: u32, a: usize) -> bool
    requires { a < 32 }
    ensures { result ≡ member s a }
{
    (s >> a) & 1 == 1
}

// A loop over a set, whose members come rising. Clauses see it as the set that is left.
#[derive(Drop)]
pub struct Members {
    left: u32,
}

impl Model for Members {
    ghost Value = { ℕ };

    ghost view = { λ m. m.left };
}

// The members of s, for a loop.
pub fn each(s: u32) -> Members
    ensures { result ≡ s }
{
    Members { left: s }
}

impl Iterator for Members {
    type Item = usize;

    ghost next_gives = { YieldsFirst members };

    ghost remaining = { item_count members };

    fn next(&mut self) -> Option<usize> {
        let left = self.left;
        if left == 0 {
            return None;
        }
        self.left = after_lowest(left);
        Some(lowest(left))
    }
}

// The smallest member.
pub fn lowest(s: u32) -> usize
    requires { 0 < s }
    ensures { members s ≡ result ∷ drop 1 (members s) }
{
    s.trailing_zeros() as usize
}

// s without its smallest member.
pub fn after_lowest(s: u32) -> u32
    requires { 0 < s }
    ensures { members result ≡ drop 1 (members s) }
{
    s & (s - 1)
}
