// Which nonterminals are needed at which lengths (document 02, U2): for each length a set. The start symbol is needed at the whole length; with a
// nonterminal at a length those of its pair rules at every shorter one.
ghost use Rattle.std.specs.Prelude.{◌≡◌, ◌<◌};
ghost use Rattle.grammar.specs.Inner.Rules.{count_in, Ruled};
ghost use Rattle.counting.specs.Inner.Needs.{WithHalvesAs, MemberOf, Owners, Finding, FoundAs};

use grammar::rules;

// With the nonterminals of a's pair rules.
fn with_halves(rules: &[[u8; 256]], a: usize, before: u32) -> u32
    requires { Ruled rules.now × (a < count_in rules.now) }
    ensures { WithHalvesAs rules.now (λ A. A ≡ a) before result }
{
    let mut set = before;
    for i in rules::pairs_from(rules, a)..rules::pairs_from(rules, a + 1) {
        let b = rules::left_at(rules, i);
        let c = rules::right_at(rules, i);
        set = sets::with(set, b);
        set = sets::with(set, c);
    }
    set
}

// With those of all pair rules of the owners.
fn with_all_halves(rules: &[[u8; 256]], owners: u32, before: u32) -> u32
    requires { Owners rules.now owners }
    ensures { WithHalvesAs rules.now (MemberOf owners) before result }
{
    let mut set = before;
    for a in sets::each(owners) {
        set = with_halves(rules, a, set);
    }
    set
}

// The sets of the lengths 1 to n, from n down. What stands in the pair rules of a nonterminal is needed at every length below those at which that
// one is, so each nonterminal's pair rules are gone through once: at the greatest of its lengths.
pub fn find(rules: &[[u8; 256]], n: usize, needs: &mut [u32; 17])
    requires { Finding rules.now n needs.old }
    ensures { FoundAs rules.now n needs.new }
{
    let mut met = sets::none();
    let mut halves = met;
    let mut here = sets::with(met, rules::start(rules));
    needs[n] = here;
    for m in (1..n).rev() {
        halves = with_all_halves(rules, sets::without(here, met), halves);
        met = sets::either(met, here);
        here = halves;
        needs[m] = here;
    }
}
