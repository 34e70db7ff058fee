// Patterns: a byte for each position, a word that must stand there or a blank.
ghost use Rattle.std.specs.Prelude.{◌≡◌};
ghost use Rattle.sampling.specs.Pattern.{neither, bad_pattern};
ghost use Rattle.sampling.specs.Inner.Patterns.{ChartSought, PatternChartedAs};

use charts::{chart, maps, ready};

// The byte that lets any word stand.
const BLANK: u16 = 255;

// The byte is neither a blank nor a word.
fn outside(x: u8, words: u8) -> bool
    ensures { result ≡ neither words x }
{
    u16::from(x) != BLANK && words <= x
}

// 21: some byte is neither a blank nor below the number of words.
pub fn bad(pattern: &[u8], words: u8) -> bool
    ensures { result ≡ bad_pattern words pattern.now }
{
    pattern.iter().any(|x| outside(*x, words))
}

// The links of the rules, the plan of the pattern's length, and the pattern's chart with the map that chooses by it.
pub fn fill(
    rules: &mut [[u8; 256]],
    pattern: &[u8],
    plan: &mut [[u32; 32]; 4],
    choice: &mut [[u16; 16]; 17],
    totals: &mut [[u64; 32]],
)
    requires { ChartSought rules.old pattern.now plan.old choice.old totals.old }
    ensures { PatternChartedAs rules.old pattern.now totals.old rules.new plan.new choice.new totals.new }
{
    ready::ready(rules, totals, pattern.len(), plan, choice);
    maps::set_letters(pattern, BLANK, choice);
    let mut sets = [0u32; 154];
    chart::fill(rules, plan, choice, &mut sets, totals);
}
