// *Give*: the sentence with a derivation number.
ghost use Rattle.std.specs.Prelude.{◌≡◌};
ghost use Rattle.counting.specs.Inner.Counted.{Counted};
ghost use Rattle.ranking.specs.Answers.{unrank_of};
ghost use Rattle.ranking.specs.Inner.Says.{unrank_says};
ghost use Rattle.ranking.specs.Inner.Inside.{total_in, weigh_in, Chooses, WriteSought, WrittenAs, unrank_in};

use answers::refusal::Refusal;
use charts::maps;
use counting::{prepare, tallies};
use grammar::rules;
use walk::Tables;
use walk::nodes::Node;

// How many derivations stand before one (document 01: derivation number). No draw number is one.
#[derive(Clone, Copy)]
pub struct DerivationNumber(pub u64);

// T(S, n), from the table.
pub fn count(rules: &[[u8; 256]], totals: &[[u64; 32]], n: usize) -> u64
    requires { Counted rules.now totals.now n }
    ensures { result ≡ total_in rules.now n }
{
    tallies::count_at(totals, rules::start(rules), n)
}

// What all derivations weigh by the choice: how many tickets there are. By the counts it is T(S, n).
pub fn total(rules: &[[u8; 256]], totals: &[[u64; 32]], choice: &[[u16; 16]; 17], n: usize) -> u64
    requires { Chooses rules.now totals.now choice.now n }
    ensures { result ≡ weigh_in rules.now choice.now n }
{
    let node = Node {
        a: rules::start(rules),
        p: 0,
        m: n,
    };
    node.total(totals, choice)
}

// Of the tickets the one with so many of them before it: its owner's sentence into the first bytes of `out`, and its owner's number among all, which the
// counts measure. Where the counts choose too, each derivation has one ticket, and the number is the one given.
pub fn write(
    tables: Tables<'_>,
    n: usize,
    number: DerivationNumber,
    out: &mut [u8],
) -> DerivationNumber
    requires { WriteSought tables.rules.now tables.totals.now tables.choice.now tables.measure.now n number.0 out.old }
    ensures { WrittenAs tables.entry.rules.now tables.entry.choice.now n number.0 out.old out.new result.0 }
{
    let node = Node {
        a: rules::start(tables.rules),
        p: 0,
        m: n,
    };
    let f = tables.choose(node, number.0, &mut out[0..n]);
    DerivationNumber(f.place)
}

// With the tables at hand.
fn give(
    rules: &[[u8; 256]],
    totals: &[[u64; 32]],
    n: usize,
    number: DerivationNumber,
    out: &mut [u8],
) -> Result<u64, Refusal>
    requires { Counted rules.now totals.now n }
    ensures { unrank_says result out.new ≡ unrank_in rules.now n number.0 out.old }
{
    let t = count(rules, totals, n);
    if t <= number.0 {
        return Err(Refusal::NumberBeyond);
    }
    if out.len() < n {
        return Err(Refusal::BufferTooShort);
    }
    let counts = maps::EVERYWHERE;
    let tables = Tables {
        rules,
        totals,
        choice: &counts,
        measure: &counts,
    };
    write(tables, n, number, out);
    Ok(t)
}

pub fn unrank(g: &[u8], n: u64, number: DerivationNumber, out: &mut [u8]) -> Result<u64, Refusal>
    ensures { unrank_says result out.new ≡ unrank_of g.now n number.0 out.old }
{
    let byte_row = [0u8; 256];
    let mut rules = [byte_row; 4];
    let row = [0u64; 32];
    let mut totals = [row; 17];
    prepare::prepare(g, n, &mut rules, &mut totals)?;
    give(&rules, &totals, n as usize, number, out)
}
