// Letters: what a word counts for at a position. Below 256 that word alone counts; any word; any word, by its weight.
ghost use Rattle.std.specs.Prelude.{◌≡◌, ◌≤◌, ◌<◌, length};
ghost use Rattle.counting.specs.Inner.Letters.{by_letter, before_at};

use grammar::rules::{BEFORE_HIGH, BEFORE_LOW, WEIGHTS};

pub const ANY: u16 = 256;

pub const WEIGHED: u16 = 257;

// What a letter lets a word count for.
pub fn weight(rules: &[[u8; 256]], letter: u16, w: u8) -> u64
    requires { letter ≡ 257 → 14 ≤ length rules.now }
    ensures { (result ≡ by_letter rules.now letter w) × (result ≤ 255) }
{
    match letter {
        ANY => 1,
        WEIGHED => u64::from(rules[WEIGHTS][usize::from(w)]),
        _ => u64::from(letter == u16::from(w)),
    }
}

// What the words before the one at i weigh together, once that is summed up.
pub fn before(rules: &[[u8; 256]], i: usize) -> u64
    requires { (16 ≤ length rules.now) × (i < 256) }
    ensures { result ≡ before_at rules.now i }
{
    u64::from(u16::from_le_bytes([rules[BEFORE_LOW][i], rules[BEFORE_HIGH][i]]))
}
