// *Check bank*: the refusals 1 to 8, each a test of its own, in the order of document 01's list.
ghost use Rattle.std.specs.Prelude.{◌≡◌, ◌≤◌, ◌<◌, length};
ghost use Rattle.lists.specs.Searched.{some_below};
ghost use Rattle.grammar.specs.Layout.{nonterminals};
ghost use Rattle.grammar.specs.Refusals.{out_of_range, fits, head_above, repeated};
ghost use Rattle.grammar.specs.Inner.Rules.{Roomy};
ghost use Rattle.grammar.specs.Inner.Entering.{Sorted};
ghost use Rattle.grammar.specs.Inner.Checks.{Sized, Readable, rules_say, Stamping, StampedAs};
ghost use Rattle.grammar.specs.Answers.{check_grammar};
ghost use Rattle.grammar.specs.Inner.Says.{grammar_says};
ghost use Rattle.grammar.specs.Inner.Reading.{ReadAs};

use crate::kinds::{Kind, Pairs, Words};
use crate::{entries, rules};
use answers::refusal::Refusal;

// What *Check bank* gives of an accepted grammar: N and W.
#[derive(Clone, Copy)]
pub struct Sizes {
    pub nonterminals: u8,
    pub words: u8,
}

// 2.
#[tactic(auto, unfolding(crate::specs::Refusals::out_of_range))]
fn out_of_range(g: &[u8]) -> bool
    requires { 4 ≤ length g.now }
    ensures { result ≡ out_of_range g.now }
{
    let n = g[0];
    n < 1 || 32 < n || g[1] < 1 || g[2] < 1 || n <= g[3]
}

// Whether a rule's a and b are such as its kind asks, with n nonterminals and w words.
#[tactic(auto, unfolding(crate::specs::Refusals::fits))]
fn rule_fits(n: u8, w: u8, kind: u8, a: u8, b: u8) -> bool
    ensures { result ≡ fits n w kind a b }
{
    match kind {
        0 => a < w && b == 0,
        1 => a < n && b < n,
        2..=255 => false,
    }
}

// 4, and 5 of the nexts: a rule that does not fit comes before a next above R, wherever they stand.
fn check_rules(g: &[u8], n: usize, r: usize) -> Result<(), Refusal>
    requires { Sized g.now n r }
    ensures { result ≡ rules_say g.now }
{
    let mut link = false;
    for i in 1..=r {
        let at = n + 4 * i;
        if !rule_fits(g[0], g[1], g[at], g[at + 1], g[at + 2]) {
            return Err(Refusal::GrammarBadRule);
        }
        link |= r < usize::from(g[at + 3]);
    }
    if link {
        Err(Refusal::GrammarBadLink)
    } else {
        Ok(())
    }
}

// 5 of the heads.
fn head_above(g: &[u8], n: usize, r: usize) -> bool
    requires { Sized g.now n r }
    ensures { result ≡ some_below (head_above g.now) (nonterminals g.now) }
{
    g[4..4 + n].iter().any(|head| r < usize::from(*head))
}

// Whether two of the rules of a of one kind are the same: then the second finds the stamp of the first.
fn some_same<K: Kind>(rules: &[[u8; 256]], a: usize, stamp: u8, stamps: &mut [u8; 1024]) -> bool
    requires { Stamping K.pairs rules.now a stamp stamps.old }
    ensures { StampedAs K.pairs rules.now a stamp stamps.new result }
{
    for i in K::begins(rules, a)..K::begins(rules, a + 1) {
        let e = K::entry(rules, i);
        if stamps[e] == stamp {
            return true;
        }
        stamps[e] = stamp;
    }
    false
}

// 8. Each nonterminal has two stamps of its own.
fn repeated(g: &[u8], rules: &[[u8; 256]]) -> bool
    requires { Readable g.now × Sorted g.now rules.now }
    ensures { result ≡ repeated g.now }
{
    let mut stamps = [0u8; 1024];
    for a in 0..usize::from(g[0]) {
        let stamp = 2 * (a as u8) + 1;
        if some_same::<Words>(rules, a, stamp, &mut stamps) {
            return true;
        }
        if some_same::<Pairs>(rules, a, stamp + 1, &mut stamps) {
            return true;
        }
    }
    false
}

// The refusals in their order. Past the last of them the rules are in the table, which may hold anything before.
pub fn read(g: &[u8], rules: &mut [[u8; 256]]) -> Result<Sizes, Refusal>
    requires { Roomy rules.old }
    ensures { ReadAs g.now rules.old rules.new result }
{
    if g.len() < 4 {
        return Err(Refusal::GrammarTooShort);
    }
    if out_of_range(g) {
        return Err(Refusal::GrammarOutOfRange);
    }
    let n = usize::from(g[0]);
    let r = usize::from(g[2]);
    if g.len() != 4 + n + 4 * r {
        return Err(Refusal::GrammarWrongSize);
    }
    check_rules(g, n, r)?;
    if head_above(g, n, r) {
        return Err(Refusal::GrammarBadLink);
    }
    if entries::build(g, rules) {
        return Err(Refusal::GrammarRuleMetTwice);
    }
    // fewer rules are met than there are
    if rules::words_from(rules, n) + rules::pairs_from(rules, n) < r {
        return Err(Refusal::GrammarRuleOnNoChain);
    }
    if repeated(g, rules) {
        return Err(Refusal::GrammarEqualRules);
    }
    Ok(Sizes {
        nonterminals: g[0],
        words: g[1],
    })
}

pub fn check(g: &[u8]) -> Result<Sizes, Refusal>
    ensures { grammar_says result ≡ check_grammar g.now }
{
    let mut rules = [[0u8; 256]; 4];
    read(g, &mut rules)
}
