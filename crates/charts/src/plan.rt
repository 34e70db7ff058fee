// The plan of a grammar and a length: which nonterminals are wanted, where spans are cut, which are needed, and their rows.
ghost use Rattle.std.specs.Prelude.{◌≡◌, true, ℕ, ◌+◌, ◌≤◌, ◌<◌, [], length, get_or};
ghost use Rattle.lists.specs.Inner.Tables.{Wide};
ghost use Rattle.sets.specs.Inner.Sets.{member};
ghost use Rattle.charts.specs.Inner.Plan.{length_in};
ghost use Rattle.charts.specs.Inner.Planning.{Sides, SidedAs, WantedAs, AllWantedAs, CutAs, AllCutAs, Spreads, SpreadAs, Spots, SpottedAs, row_from, RowAs, PlacedAs, Plans, BuiltAs};

use crate::maps::{CHART, NONE};
use grammar::rules;

// Rows of a plan. By length: the left lengths at which spans are cut, the positions of the needed spans, the nonterminals with a
// derivation. By left nonterminal: its right ones.
pub const CUTS: usize = 0;

// Where a plan has its length: no span of 0 positions is cut.
pub const LENGTH: usize = 0;

pub const SPOTS: usize = 1;

pub const WANTED: usize = 2;

pub const PARTNERS: usize = 3;

// The nonterminals that stand left in pair rules, and right.
#[derive(Clone, Copy)]
struct PairSides {
    lefts: u32,
    rights: u32,
}

// The right nonterminals of each left one, from the first `end` pair rules.
#[tactic(auto, using(crate::proofs::Gathering::sides_low))]
fn link(rules: &[[u8; 256]], end: usize, partners: &mut [u32; 32]) -> PairSides
    requires { Sides rules.now end partners.old }
    ensures { SidedAs rules.now end partners.new result.lefts result.rights }
{
    let mut lefts = sets::none();
    let mut rights = sets::none();
    for i in 0..end {
        let b = rules::left_at(rules, i);
        let c = rules::right_at(rules, i);
        partners[b] = sets::with(partners[b], c);
        lefts = sets::with(lefts, b);
        rights = sets::with(rights, c);
    }
    PairSides { lefts, rights }
}

// The nonterminals below `count` with a derivation of the length m.
fn wanted_at(totals: &[[u64; 32]], count: usize, m: usize) -> u32
    requires { (count ≤ 32) × (m ≤ 16) × (17 ≤ length totals.now) }
    ensures { WantedAs totals.now count m result }
{
    let mut s = sets::none();
    for a in 0..count {
        if totals[m][a] != 0 {
            s = sets::with(s, a);
        }
    }
    s
}

fn want(totals: &[[u64; 32]], count: usize, n: usize, wanted: &mut [u32; 32])
    requires { (count ≤ 32) × (n ≤ 16) × (17 ≤ length totals.now) × (length wanted.old ≡ 32) }
    ensures { AllWantedAs totals.now count n wanted.new }
{
    for m in 1..n + 1 {
        wanted[m] = wanted_at(totals, count, m);
    }
}

// Whether s and t share a member.
fn meets(s: u32, t: u32) -> bool
    ensures { (a : ℕ) → member s a ≡ true → member t a ≡ true → result ≡ true }
{
    sets::both(s, t) != 0
}

// The left lengths at which a span of m positions can be cut.
fn cuts_at(wanted: &[u32; 32], lefts: u32, rights: u32, m: usize) -> u32
    requires { (1 ≤ m) × (m ≤ 16) }
    ensures { CutAs wanted.now lefts rights m result }
{
    let mut s = sets::none();
    for k in 1..m {
        if meets(wanted[k], lefts) && meets(wanted[m - k], rights) {
            s = sets::with(s, k);
        }
    }
    s
}

fn cut(wanted: &[u32; 32], lefts: u32, rights: u32, n: usize, cuts: &mut [u32; 32])
    requires { (n ≤ 16) × (length cuts.old ≡ 32) }
    ensures { AllCutAs wanted.now lefts rights n cuts.new }
{
    for m in 1..n + 1 {
        cuts[m] = cuts_at(wanted, lefts, rights, m);
    }
}

// The halves of the needed spans of m positions, at each left length of `cuts`.
fn spread(cuts: u32, m: usize, spots: &mut [u32; 32])
    requires { Spreads cuts m spots.old }
    ensures { SpreadAs cuts m spots.old spots.new }
{
    let here = spots[m];
    for k in sets::each(cuts) {
        spots[k] = sets::either(spots[k], here);
        spots[m - k] = sets::either(spots[m - k], sets::moved(here, k));
    }
}

// The needed spans: the whole, and with a span its halves.
fn spot(cuts: &[u32; 32], n: usize, spots: &mut [u32; 32])
    requires { Spots cuts.now n spots.old }
    ensures { SpottedAs cuts.now n 1 spots.new }
{
    spots[n] = sets::with(sets::none(), 0);
    for m in (2..n + 1).rev() {
        spread(cuts[m], m, spots);
    }
}

// The row of the span at p, where the rows of its length begin at `base`.
fn row_from(spots: u32, base: usize, p: usize) -> u16
    requires { (p < 16) × (base ≤ 290) }
    ensures { result ≡ row_from spots base p }
{
    if sets::has(spots, p) {
        (base + p) as u16
    } else {
        NONE as u16
    }
}

fn row(spots: u32, base: usize, end: usize, row: &mut [u16; 16])
    requires { (base ≤ 290) × (end ≤ 16) × (length row.old ≡ 16) }
    ensures { RowAs spots base end row.new }
{
    for p in 0..end {
        row[p] = row_from(spots, base, p);
    }
}

// The rows of all spans, from the row `first` on: every length has as many as it has positions.
fn place(spots: &[u32; 32], n: usize, first: usize, map: &mut [[u16; 16]; 17])
    requires { (n ≤ 16) × (first ≤ 154) × (length map.old ≡ 17) × Wide map.old 16 }
    ensures { PlacedAs spots.now first n (n + 1) map.old map.new }
{
    let mut rows = [0u16; 16];
    let mut base = first;
    for m in 1..n + 1 {
        let end = n - m + 1;
        row(spots[m], base, end, &mut rows);
        map[m] = rows;
        base += end;
    }
}

// The length that a plan is for.
pub fn length(plan: &[[u32; 32]; 4]) -> usize
    ensures { result ≡ length_in plan.now }
{
    plan[CUTS][LENGTH] as usize
}

pub fn build(
    rules: &[[u8; 256]],
    totals: &[[u64; 32]],
    n: usize,
    plan: &mut [[u32; 32]; 4],
    map: &mut [[u16; 16]; 17],
)
    requires { Plans rules.now totals.now n plan.old map.old }
    ensures { BuiltAs rules.now n map.old plan.new map.new }
{
    let count = rules::count(rules);
    let mut partners = [0u32; 32];
    let sides = link(rules, rules::pairs_from(rules, count), &mut partners);
    let mut wanted = [0u32; 32];
    want(totals, count, n, &mut wanted);
    let mut cuts = [0u32; 32];
    cut(&wanted, sides.lefts, sides.rights, n, &mut cuts);
    cuts[LENGTH] = n as u32;
    let mut spots = [0u32; 32];
    spot(&cuts, n, &mut spots);
    place(&spots, n, CHART, map);
    plan[CUTS] = cuts;
    plan[SPOTS] = spots;
    plan[WANTED] = wanted;
    plan[PARTNERS] = partners;
}

// The rows of further charts by the same plan, from the row `first` on.
pub fn rows(plan: &[[u32; 32]; 4], first: usize, map: &mut [[u16; 16]; 17])
    requires { (length_in plan.now ≤ 16) × (first ≤ 154) × (length map.old ≡ 17) × Wide map.old 16 }
    ensures { PlacedAs (get_or plan.now 1 []) first (length_in plan.now) (length_in plan.now + 1) map.old map.new }
{
    let n = length(plan);
    place(&plan[SPOTS], n, first, map);
}
