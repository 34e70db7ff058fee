// The words' weights: whether they are such, their row in the table of rules, and what the words before each weigh.
ghost use Rattle.std.specs.Prelude.{◌≡◌};
ghost use Rattle.weighing.specs.Weights.{bad_weights};
ghost use Rattle.weighing.specs.Inner.Tables.{Sets, SetAs, SumsUp, SummedUpAs};

use counting::letters;
use counting::letters::WEIGHED;
use grammar::rules;
use grammar::rules::{BEFORE_HIGH, BEFORE_LOW, WEIGHTS};

// 24: they are not one for each word, or one of them is 0.
pub fn bad(weights: &[u8], words: u8) -> bool
    ensures { result ≡ bad_weights words weights.now }
{
    weights.len() != usize::from(words) || weights.contains(&0)
}

// Into their row, which is all 0.
pub fn set(weights: &[u8], rules: &mut [[u8; 256]])
    requires { Sets weights.now rules.old }
    ensures { SetAs weights.now rules.old rules.new }
{
    // Stays: tried with `rules[WEIGHTS][..n].copy_from_slice(weights)`, and the proof did not close: nothing tells what a row becomes whose part is lent.
    for (w, weight) in weights.iter().enumerate() {
        rules[WEIGHTS][w] = *weight;
    }
}

// What the words before each word weigh together, nonterminal after nonterminal. It fits in two bytes: there are 255 words at most.
pub fn sum_up(rules: &mut [[u8; 256]])
    requires { SumsUp rules.old }
    ensures { SummedUpAs rules.old rules.new }
{
    for a in 0..rules::count(rules) {
        let mut sum: u16 = 0;
        for i in rules::words_from(rules, a)..rules::words_from(rules, a + 1) {
            let word = rules::word_at(rules, i);
            let weight = letters::weight(rules, WEIGHED, word);
            let [low, high] = sum.to_le_bytes();
            rules[BEFORE_LOW][i] = low;
            rules[BEFORE_HIGH][i] = high;
            sum += weight as u16;
        }
    }
}
