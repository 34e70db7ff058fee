// The links of a table of rules: from the last rule with a word to the one before, and so on, and from the last pair rule with two
// nonterminals.
ghost use Rattle.grammar.specs.Inner.Links.{Unlinked, LinkedAs};
ghost use Rattle.grammar.specs.Inner.Linking.{Links, LinkedOf};

use crate::kinds::{Kind, Pairs, Words};
use crate::rules;

// The rules of a of one kind.
fn link_kind<K: Kind>(rules: &mut [[u8; 256]], a: usize)
    requires { Links K.pairs rules.old a }
    ensures { LinkedOf K.pairs rules.old rules.new a }
{
    for i in K::begins(rules, a)..K::begins(rules, a + 1) {
        let (row, place) = K::head(K::entry(rules, i));
        let link = i + 1;
        rules[K::NEXT][link] = rules[row][place];
        rules[K::OWNER][link] = a as u8;
        rules[row][place] = link as u8;
    }
}

// The links of all rules, in rows of zeros.
pub fn link(rules: &mut [[u8; 256]])
    requires { Unlinked rules.old }
    ensures { LinkedAs rules.old rules.new }
{
    for a in 0..rules::count(rules) {
        link_kind::<Words>(rules, a);
        link_kind::<Pairs>(rules, a);
    }
}
