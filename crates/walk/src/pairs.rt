// A longer span: which pair rule of a nonterminal, with which left length, holds a ticket.
ghost use Rattle.std.specs.Prelude.{ℕ, ◌-◌, ◌≤◌, ◌<◌};
ghost use Rattle.grammar.specs.Inner.Rules.{ruled};
ghost use Rattle.counting.specs.Inner.Owned.{ChosenAs};
ghost use Rattle.charts.specs.Inner.Letters.{weight_by};
ghost use Rattle.walk.specs.Inner.Sought.{Sought};

use crate::Tables;
use crate::nodes::{Node, product};
use counting::tallies::LONGEST;
use grammar::rules;

// A pair rule's nonterminals and a left length, with what stands before and what is left of the ticket.
#[derive(Clone, Copy)]
pub struct Pick {
    pub b: usize,
    pub c: usize,
    pub k: usize,
    pub before: u64,
    pub rest: u64,
}

// The first left length that leaves the right half at most l positions.
fn first(m: usize, l: u64) -> usize
    requires { 1 ≤ m }
    ensures { (1 ≤ result) × (result ≤ m) × ((k : ℕ) → 1 ≤ k → k < result → l < m - k) }
{
    m.saturating_sub(l as usize).max(1)
}

// Past the last left length of at most l positions.
fn past(m: usize, l: u64) -> usize
    requires { 1 ≤ m }
    ensures { (result ≤ m) × ((k : ℕ) → result ≤ k → k < m → l < k) }
{
    (l as usize).saturating_add(1).min(m)
}

impl<'a> Tables<'a> {
    // Of the pair rules of a node and their left lengths the one that holds the ticket: each turn looks at a left length, or takes the next rule
    // where none is left. Only those are looked at at which neither half is longer than its longest derivation.
    // Stays: with a loop over the left lengths in a loop over the rules the walk was slower, since most rules have one left length to look at.
    pub fn choose_rule(&self, node: Node, ticket: u64) -> Pick
        requires { Sought self.now.rules.now self.now.totals.now self.now.choice.now self.now.measure.now node.a node.p node.m ticket × (2 ≤ node.m) }
        ensures { ChosenAs (ruled self.now.rules.now) (weight_by self.now.rules.now self.now.choice.now) (weight_by self.now.rules.now self.now.measure.now) node.a node.p node.m ticket result.b result.c result.k result.before result.rest }
    {
        let m = node.m;
        let mut i = rules::pairs_from(self.rules, node.a);
        let mut b = 0;
        let mut c = 0;
        let mut k = m;
        let mut end = m;
        let mut before: u64 = 0;
        let mut rest = ticket;
        loop {
            if k < end {
                let l = node.left(b, k);
                let r = node.right(c, k);
                let x = product(self.totals, self.choice, l, r);
                if rest < x {
                    return Pick {
                        b,
                        c,
                        k,
                        before,
                        rest,
                    };
                }
                rest -= x;
                before += product(self.totals, self.measure, l, r);
                k += 1;
            } else {
                b = rules::left_at(self.rules, i);
                c = rules::right_at(self.rules, i);
                k = first(m, self.totals[LONGEST][c]);
                end = past(m, self.totals[LONGEST][b]);
                i += 1;
            }
        }
    }
}
