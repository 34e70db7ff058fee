// The walk down from the whole sentence: the rule chooser and the halves writer call each other, the length falling (document 01: "choosing
// a rule needs the two halves, and each half needs a rule chosen, on a smaller length"). Of the derivations in order, each with as many
// consecutive tickets as it weighs by the choice, it finds the one that owns a ticket.
#![tactic(auto)]

ghost use Rattle.std.specs.Prelude.{◌≡◌, ◌*◌, ◌/◌, ◌%◌, ◌≤◌, ◌<◌, length};
ghost use Rattle.grammar.specs.Inner.Rules.{ruled};
ghost use Rattle.counting.specs.Refusals.{most};
ghost use Rattle.counting.specs.Inner.Owned.{OwnedAs};
ghost use Rattle.charts.specs.Inner.Letters.{weight_by};
ghost use Rattle.walk.specs.Inner.Sought.{Sought};
ghost use Rattle.walk.specs.Inner.Steps.{HalvesSought, HalvesFoundAs, scaled, Extends, ExtendedAs};

use crate::nodes::Node;
use crate::pairs::Pick;

pub mod leaf;
pub mod nodes;
pub mod pairs;

// What every step of the walk reads: the rules, the totals, and the maps of what chooses and of what measures.
#[derive(Clone, Copy)]
pub struct Tables<'a> {
    pub rules: &'a [[u8; 256]],
    pub totals: &'a [[u64; 32]],
    pub choice: &'a [[u16; 16]; 17],
    pub measure: &'a [[u16; 16]; 17],
}

// What is found: its place by the measure, what it measures and what it weighs, and the ticket's offset in it.
#[derive(Clone, Copy)]
pub struct Found {
    pub place: u64,
    pub measured: u64,
    pub weight: u64,
    pub offset: u64,
}

// Stays: a division is what takes long here, and what a ticket is divided by most often is 1.
fn quotient(x: u64, y: u64) -> u64
    requires { 0 < y }
    ensures { result ≡ x / y }
{
    if y == 1 { x } else { x / y }
}

// Stays: as `quotient`; the edit left_passed_twice is of its test.
fn remainder(x: u64, y: u64) -> u64
    requires { 0 < y }
    ensures { result ≡ x % y }
{
    if y == 1 { 0 } else { x % y }
}

// a times b, or 0 where nothing is measured after it: such a product counts for nothing, and need not fit.
fn times(a: u64, b: u64, after: u64) -> u64
    requires { 0 < after → a * b ≤ most }
    ensures { result ≡ scaled a b after }
{
    if after == 0 { 0 } else { a * b }
}

impl Found {
    // One part more behind those found so far: `before` stands before it, `after` is what follows it in all by the measure, x is what is left of the
    // ticket.
    fn extend(self, before: u64, part: Found, after: u64, x: u64) -> Found
        requires { Extends self.place self.measured self.weight self.offset before part.place part.measured part.weight after x }
        ensures { ExtendedAs self.place self.measured self.weight self.offset before part.place part.measured part.weight after x result.place result.measured result.weight result.offset }
    {
        Found {
            place: self.place + self.measured * (before + part.place * after),
            measured: times(self.measured, part.measured, after),
            weight: self.weight * part.weight,
            offset: self.offset + self.weight * remainder(x, part.weight),
        }
    }
}

impl<'a> Tables<'a> {
    // The rule chooser: of the derivations of a node the one that owns the ticket, its sentence written to `out`.
    #[cycle(choose_halves_left_half)]
    pub fn choose(&self, node: Node, ticket: u64, out: &mut [u8]) -> Found
        requires { Sought self.now.rules.now self.now.totals.now self.now.choice.now self.now.measure.now node.a node.p node.m ticket × (length out.old ≡ node.m) }
        ensures { OwnedAs (ruled self.now.rules.now) (weight_by self.now.rules.now self.now.choice.now) (weight_by self.now.rules.now self.now.measure.now) node.a node.p node.m ticket out.new result.place result.measured result.weight result.offset }
    {
        if node.m == 1 {
            return self.leaf(node, ticket, out);
        }
        let pick = self.choose_rule(node, ticket);
        self.halves(node, pick, out)
    }

    // The same of a left half.
    // Stays: most left halves are a single word, found without a further call; with `choose` in its place the walk was slower.
    #[cycle(choose_halves_left_half)]
    fn left_half(&self, node: Node, ticket: u64, out: &mut [u8]) -> Found
        requires { Sought self.now.rules.now self.now.totals.now self.now.choice.now self.now.measure.now node.a node.p node.m ticket × (length out.old ≡ node.m) }
        ensures { OwnedAs (ruled self.now.rules.now) (weight_by self.now.rules.now self.now.choice.now) (weight_by self.now.rules.now self.now.measure.now) node.a node.p node.m ticket out.new result.place result.measured result.weight result.offset }
    {
        if node.m == 1 {
            return self.leaf(node, ticket, out);
        }
        self.choose(node, ticket, out)
    }

    // The halves writer: the left half by the quotient, the right one by what is left of the ticket, over what the left one weighs. A right half
    // of more than one word has halves in turn: they are written here too, so that a walk to the right is a loop.
    #[cycle(choose_halves_left_half)]
    fn halves(&self, node: Node, pick: Pick, out: &mut [u8]) -> Found
        requires { HalvesSought self.now.rules.now self.now.totals.now self.now.choice.now self.now.measure.now node.a node.p node.m pick.b pick.c pick.k pick.before pick.rest × (length out.old ≡ node.m) }
        ensures { HalvesFoundAs self.now.rules.now self.now.choice.now self.now.measure.now node.p node.m pick.b pick.c pick.k pick.before pick.rest out.new result.place result.measured result.weight result.offset }
    {
        let mut here = node;
        let mut chosen = pick;
        let mut at = 0;
        let mut found = Found {
            place: 0,
            measured: 1,
            weight: 1,
            offset: 0,
        };
        loop {
            let end = at + chosen.k;
            let left = here.left(chosen.b, chosen.k);
            let right = here.right(chosen.c, chosen.k);
            let v = right.total(self.totals, self.choice);
            let u = right.total(self.totals, self.measure);
            let l = self.left_half(left, quotient(chosen.rest, v), &mut out[at..end]);
            let x = l.offset * v + remainder(chosen.rest, v);
            let ticket = quotient(x, l.weight);
            found = found.extend(chosen.before, l, u, x);
            here = right;
            at = end;
            if here.m == 1 {
                let f = self.leaf(here, ticket, &mut out[at..]);
                return found.extend(0, f, 1, f.offset);
            }
            chosen = self.choose_rule(here, ticket);
        }
    }
}
