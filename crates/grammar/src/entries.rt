// The table of rules, filled by the walk of the chains that finds a rule met a second time.
ghost use Rattle.std.specs.Prelude.{◌<◌};
ghost use Rattle.grammar.specs.Inner.Rules.{Roomy};
ghost use Rattle.grammar.specs.Inner.Checks.{Readable};
ghost use Rattle.grammar.specs.Inner.Entering.{PreparedAs, Entering, EnteredAs, BuiltAs};

use crate::cursor::{ChainCursor, Step};
use crate::rules::{BEGINS, COUNT, LEFTS, PAIRS, RIGHTS, START, WIDTH, WORDS};
use crate::{fields, rules};

// No rule yet, and the grammar's own numbers.
fn prepare(g: &[u8], rules: &mut [[u8; 256]])
    requires { Roomy rules.old }
    ensures { PreparedAs g.now rules.old rules.new }
{
    rules[BEGINS][0] = 0;
    rules[BEGINS][PAIRS] = 0;
    rules[BEGINS][START] = fields::start(g);
    rules[BEGINS][COUNT] = fields::nonterminals(g);
    rules[BEGINS][WIDTH] = fields::words(g);
}

// The rules of a, behind those of the nonterminals below it; whether one of them is met a second time.
fn enter(g: &[u8], a: u8, seen: &mut [u8; 256], rules: &mut [[u8; 256]]) -> bool
    requires { Entering g.now seen.old rules.old a }
    ensures { EnteredAs g.now seen.new rules.old rules.new a result }
{
    let n = usize::from(g[0]);
    let i = usize::from(a);
    let mut w = rules::words_from(rules, i);
    let mut p = rules::pairs_from(rules, i);
    let mut walk = ChainCursor::new(g, a);
    loop {
        let at = usize::from(walk.at);
        if seen[at] != 0 {
            return true;
        }
        match walk.step(g, n) {
            // where the next nonterminal begins
            Step::End => {
                rules[BEGINS][i + 1] = w as u8;
                rules[BEGINS][PAIRS + i + 1] = p as u8;
                return false;
            }
            Step::Word(x, next) => {
                seen[at] = 1;
                rules[WORDS][w] = x;
                w += 1;
                walk = next;
            }
            Step::Pair(b, c, next) => {
                seen[at] = 1;
                rules[LEFTS][p] = b;
                rules[RIGHTS][p] = c;
                p += 1;
                walk = next;
            }
        }
    }
}

// The rules on all chains, in a table that may hold anything; whether a rule is met a second time.
pub fn build(g: &[u8], rules: &mut [[u8; 256]]) -> bool
    requires { Readable g.now × Roomy rules.old }
    ensures { BuiltAs g.now rules.old rules.new result }
{
    prepare(g, rules);
    let mut seen = [0u8; 256];
    for a in 0..fields::nonterminals(g) {
        if enter(g, a, &mut seen, rules) {
            return true;
        }
    }
    false
}
