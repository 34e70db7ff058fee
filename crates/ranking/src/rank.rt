// *Number*: how many derivations a sentence has, and the lowest of their numbers.
ghost use Rattle.std.specs.Prelude.{◌≡◌, List, ℕ, length};
ghost use Rattle.ranking.specs.Answers.{rank_of};
ghost use Rattle.ranking.specs.Inner.Says.{rank_says};
ghost use Rattle.ranking.specs.Inner.Inside.{rank_in};
ghost use Rattle.ranking.specs.Inner.Ranking.{FindSought, FoundAs, PlaceSought, PlacedAs, NumberSought, RoomFor};

use crate::unrank;
use crate::unrank::DerivationNumber;
use answers::refusal::Refusal;
use charts::{chart, maps, ready};
use counting::letters::ANY;
use counting::prepare;
use grammar::rules;
use walk::Tables;
use walk::nodes::Node;

// The tickets that a derivation owns: the first of them, and how many they are.
#[derive(Clone, Copy)]
pub struct Span {
    pub first: u64,
    pub weight: u64,
}

// What a sentence that has derivations is answered: the lowest of their numbers, T, and how many they are.
#[derive(Clone, Copy)]
pub struct Ranked {
    pub lowest: DerivationNumber,
    pub total: u64,
    pub derivations: u64,
}

// How many derivations a sentence of the plan's length has: what the whole weighs by its letters.
pub fn derivations(
    rules: &[[u8; 256]],
    plan: &[[u32; 32]; 4],
    map: &mut [[u16; 16]; 17],
    sentence: &[u8],
    sets: &mut [u32],
    totals: &mut [[u64; 32]],
) -> u64
    requires { (first : ℕ) × FindSought rules.now plan.now map.old first sentence.now sets.old totals.old }
    ensures { (first : ℕ) → FindSought rules.now plan.now map.old first sentence.now sets.old totals.old → FoundAs rules.now plan.now map.new first sentence.now totals.old sets.new totals.new result }
{
    maps::set_letters(sentence, ANY, map);
    chart::fill(rules, plan, map, sets, totals);
    let node = Node {
        a: rules::start(rules),
        p: 0,
        m: sentence.len(),
    };
    node.total(totals, map)
}

// The tickets of a sentence's first derivation by a measure. The sentence's letters are what chooses, so that their ticket 0 is the first's.
pub fn place(tables: &Tables<'_>, n: usize) -> Span
    requires { (s : List ℕ) × PlaceSought tables.now.rules.now tables.now.totals.now tables.now.choice.now tables.now.measure.now n s }
    ensures { (s : List ℕ) → PlaceSought tables.now.rules.now tables.now.totals.now tables.now.choice.now tables.now.measure.now n s → PlacedAs tables.now.rules.now tables.now.measure.now s result.first result.weight }
{
    let node = Node {
        a: rules::start(tables.rules),
        p: 0,
        m: n,
    };
    let mut words = [0u8; 16];
    let f = tables.choose(node, 0, &mut words[0..n]);
    Span {
        first: f.place,
        weight: f.measured,
    }
}

// With the tables at hand.
fn number_by(
    rules: &mut [[u8; 256]],
    sentence: &[u8],
    totals: &mut [[u64; 32]],
) -> Result<Ranked, Refusal>
    requires { NumberSought rules.old sentence.now totals.old }
    ensures { rank_says result ≡ rank_in rules.old sentence.now }
{
    let n = sentence.len();
    let set_row = [0u32; 32];
    let mut plan = [set_row; 4];
    let map_row = [0u16; 16];
    let mut map = [map_row; 17];
    ready::ready(rules, totals, n, &mut plan, &mut map);
    let mut sets = [0u32; 154];
    let k = derivations(rules, &plan, &mut map, sentence, &mut sets, totals);
    if k == 0 {
        return Err(Refusal::SentenceUnderivable);
    }
    let counts = maps::EVERYWHERE;
    let tables = Tables {
        rules,
        totals,
        choice: &map,
        measure: &counts,
    };
    let d = place(&tables, n);
    Ok(Ranked {
        lowest: DerivationNumber(d.first),
        total: unrank::count(rules, totals, n),
        derivations: k,
    })
}

// With room for the chart of the sentence.
fn number<const ROWS: usize>(g: &[u8], sentence: &[u8]) -> Result<Ranked, Refusal>
    requires { RoomFor (length sentence.now) ROWS }
    ensures { rank_says result ≡ rank_of g.now sentence.now }
{
    let mut rules = [[0u8; 256]; 13];
    let mut totals = [[0u64; 32]; ROWS];
    prepare::prepare(g, sentence.len() as u64, &mut rules, &mut totals)?;
    number_by(&mut rules, sentence, &mut totals)
}

// A chart of up to five words takes 33 rows, of sixteen 154: clearing them is much of the time that a short sentence takes.
pub fn rank(g: &[u8], sentence: &[u8]) -> Result<Ranked, Refusal>
    ensures { rank_says result ≡ rank_of g.now sentence.now }
{
    if sentence.len() <= 5 {
        number::<33>(g, sentence)
    } else {
        number::<154>(g, sentence)
    }
}
