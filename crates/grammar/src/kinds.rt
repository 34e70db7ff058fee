// The two kinds of rules, words and pair rules, for what is done alike with both.
ghost use Rattle.std.specs.Prelude.{◌≡◌, ℕ, refl, ◌≤◌, ◌<◌, Bool, true, false, length};
ghost use Rattle.grammar.specs.Inner.Checks.{begins_at, entry_at};
ghost use Rattle.grammar.specs.Inner.Linking.{numbers, head_row, head_place, next_row, owner_row};

use crate::rules;
use crate::rules::{NEXT_PAIR, NEXT_WORD, PAIR_OWNER, WITH_PAIR, WITH_WORD, WORD_OWNER};

// A kind: where the rules of a begin, and the rule at i as one number; the row and place of the link to the last rule with a number, and
// the rows of the links from rule to rule and of their owners.
pub trait Kind {
    ghost pairs: { Bool };

    ghost NEXT: { ℕ };

    ghost OWNER: { ℕ };

    const NEXT: usize;

    const OWNER: usize;

    fn begins(rules: &[[u8; 256]], a: usize) -> usize
        requires { (4 ≤ length rules.now) × (a ≤ 32) }
        ensures { (result ≡ begins_at pairs rules.now a) × (result < 256) };

    fn entry(rules: &[[u8; 256]], i: usize) -> usize
        requires { (4 ≤ length rules.now) × (i < 256) }
        ensures { result ≡ entry_at pairs rules.now i };

    fn head(x: usize) -> (usize, usize)
        requires { x < numbers pairs }
        ensures { (result.0 ≡ head_row pairs x) × (result.1 ≡ head_place pairs x) };

    ghost rows: { (NEXT ≡ next_row pairs) × (OWNER ≡ owner_row pairs) };
}

// A word rule is its word.
pub struct Words;

impl Kind for Words {
    ghost pairs = { false };

    ghost NEXT = { next_row false };

    ghost OWNER = { owner_row false };

    const NEXT: usize = NEXT_WORD;

    const OWNER: usize = WORD_OWNER;

    fn begins(rules: &[[u8; 256]], a: usize) -> usize {
        rules::words_from(rules, a)
    }

    fn entry(rules: &[[u8; 256]], i: usize) -> usize {
        usize::from(rules::word_at(rules, i))
    }

    fn head(x: usize) -> (usize, usize) {
        (WITH_WORD, x)
    }

    ghost rows = { (refl, refl) };
}

// A pair rule is its two nonterminals.
pub struct Pairs;

impl Kind for Pairs {
    ghost pairs = { true };

    ghost NEXT = { next_row true };

    ghost OWNER = { owner_row true };

    const NEXT: usize = NEXT_PAIR;

    const OWNER: usize = PAIR_OWNER;

    fn begins(rules: &[[u8; 256]], a: usize) -> usize {
        rules::pairs_from(rules, a)
    }

    fn entry(rules: &[[u8; 256]], i: usize) -> usize {
        32 * rules::left_at(rules, i) + rules::right_at(rules, i)
    }

    // 256 to a row
    fn head(x: usize) -> (usize, usize) {
        (WITH_PAIR + x / 256, x % 256)
    }

    ghost rows = { (refl, refl) };
}
