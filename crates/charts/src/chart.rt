// The chart of a sentence or a pattern: for each span that is needed a row of totals, shorter spans first. Beside each row a set of
// nonterminals outside which it is 0: by that set the row is cleared before it is made anew.
ghost use Rattle.std.specs.Prelude.{◌≡◌, ℕ, ◌+◌, ◌*◌, ◌-◌, ◌<◌};
ghost use Rattle.lists.specs.Inner.Tables.{entry};
ghost use Rattle.grammar.specs.Inner.Rules.{count_in};
ghost use Rattle.charts.specs.Inner.Maps.{row_at};
ghost use Rattle.charts.specs.Inner.Plan.{length_in, wanted};
ghost use Rattle.charts.specs.Inner.Chart.{Fills, ChartedAs};
ghost use Rattle.charts.specs.Inner.Filling.{blanked, Clears, only, tie_sum, side_sum, pair_sum, cuts_sum, word_count, word_times, leaf_sum, GrownAs, Clear, AddsPair, AddsLeft, AddsSplit, MadeAs, Makes, Joins, Spans, SpannedAs, Lengthens, LengthenedAs};

use crate::plan::{CUTS, PARTNERS, SPOTS, WANTED};
use crate::{maps, plan};
use counting::letters;
use grammar::rules;

// ---- a row to begin with

// A row that is 0 outside the set becomes all 0. One number is cleared by itself, of several the whole row: that takes less time than one after another.
fn clear(set: u32, row: usize, totals: &mut [[u64; 32]])
    requires { Clears set row totals.old }
    ensures { totals.new ≡ blanked totals.old row }
{
    if set == 0 {
        return;
    }
    let others = sets::after_lowest(set);
    if others != 0 {
        totals[row] = [0u64; 32];
        return;
    }
    let a = sets::lowest(set);
    totals[row][a] = 0;
}

// ---- one position

// Any word: each nonterminal with as many as it has.
fn add_words(rules: &[[u8; 256]], row: usize, totals: &mut [[u64; 32]]) -> u32
    requires { Clear rules.now totals.old row }
    ensures { GrownAs row (count_in rules.now) (word_count rules.now) totals.old totals.new result }
{
    let count = rules::count(rules);
    let mut set = sets::none();
    for a in 0..count {
        let words = rules::words_from(rules, a + 1) - rules::words_from(rules, a);
        if words != 0 {
            totals[row][a] = words as u64;
            set = sets::with(set, a);
        }
    }
    set
}

// The word x: no nonterminal has it twice, so no number has to be read.
fn add_word(rules: &[[u8; 256]], x: usize, row: usize, totals: &mut [[u64; 32]]) -> u32
    requires { Clear rules.now totals.old row × (x < 256) }
    ensures { GrownAs row (count_in rules.now) (word_times rules.now x) totals.old totals.new result }
{
    let mut set = sets::none();
    let mut l = rules::link_at(rules, rules::WITH_WORD, x);
    while 0 < l {
        let a = rules::link_at(rules, rules::WORD_OWNER, l);
        totals[row][a] = 1;
        set = sets::with(set, a);
        l = rules::link_at(rules, rules::NEXT_WORD, l);
    }
    set
}

// ---- two positions or more

// A row, and those of the halves.
#[derive(Clone, Copy)]
struct Split {
    row: usize,
    left: usize,
    right: usize,
}

// What the pair rules (b, c) add. Nothing is multiplied for a nonterminal that isn't wanted.
fn add_pair(
    rules: &[[u8; 256]],
    wanted: u32,
    s: Split,
    b: usize,
    c: usize,
    totals: &mut [[u64; 32]],
) -> u32
    requires { AddsPair rules.now wanted s.row s.left s.right b c totals.old }
    ensures { GrownAs s.row (count_in rules.now) (λ A. only wanted A (tie_sum rules.now (entry totals.old s.left b * entry totals.old s.right c) b c A)) totals.old totals.new result }
{
    let row = s.row;
    let left = s.left;
    let right = s.right;
    let x = totals[left][b];
    let y = totals[right][c];
    let mut set = sets::none();
    let mut l = rules::pair_head(rules, b, c);
    while 0 < l {
        let a = rules::link_at(rules, rules::PAIR_OWNER, l);
        if sets::has(wanted, a) {
            totals[row][a] += x * y;
            set = sets::with(set, a);
        }
        l = rules::link_at(rules, rules::NEXT_PAIR, l);
    }
    set
}

// ---- rows by the spans

// What filling reads.
#[derive(Clone, Copy)]
struct Sources<'a> {
    rules: &'a [[u8; 256]],
    plan: &'a [[u32; 32]; 4],
    map: &'a [[u16; 16]; 17],
}

impl<'a> Sources<'a> {
    // The row of the position p; it is 0 outside `old`.
    fn fill_leaf(&self, p: usize, old: u32, totals: &mut [[u64; 32]]) -> u32
        requires { Makes self.now.rules.now self.now.map.now p 1 old totals.old }
        ensures { MadeAs (row_at self.now.map.now p 1) (count_in self.now.rules.now) (leaf_sum self.now.rules.now self.now.map.now p) totals.old totals.new result }
    {
        let row = maps::row_at(self.map, p, 1);
        clear(old, row, totals);
        let x = self.map[maps::LETTERS][p];
        if x == letters::ANY {
            return add_words(self.rules, row, totals);
        }
        add_word(self.rules, x as usize, row, totals)
    }

    // What those with the left nonterminal b add; the right row is 0 outside `rights`.
    fn add_left(
        &self,
        wanted: u32,
        s: Split,
        b: usize,
        rights: u32,
        totals: &mut [[u64; 32]],
    ) -> u32
        requires { AddsLeft self.now.rules.now self.now.plan.now wanted s.row s.left s.right b rights totals.old }
        ensures { GrownAs s.row (count_in self.now.rules.now) (λ A. only wanted A (side_sum self.now.rules.now (entry totals.old s.left b) (entry totals.old s.right) b A)) totals.old totals.new result }
    {
        let mut set = sets::none();
        for c in sets::each(sets::both(rights, self.plan[PARTNERS][b])) {
            set = sets::either(set, add_pair(self.rules, wanted, s, b, c, totals));
        }
        set
    }

    // What all pair rules add.
    fn add_split(&self, wanted: u32, s: Split, sets: &[u32], totals: &mut [[u64; 32]]) -> u32
        requires { AddsSplit self.now.rules.now self.now.plan.now wanted s.row s.left s.right sets.now totals.old }
        ensures { GrownAs s.row (count_in self.now.rules.now) (λ A. only wanted A (pair_sum self.now.rules.now (entry totals.old s.left) (entry totals.old s.right) A)) totals.old totals.new result }
    {
        let rights = sets[s.right];
        let mut set = sets::none();
        for b in sets::each(sets[s.left]) {
            set = sets::either(set, self.add_left(wanted, s, b, rights, totals));
        }
        set
    }

    // The row of the m positions from p on, cut after cut.
    fn fill_cuts(&self, p: usize, m: usize, sets: &[u32], totals: &mut [[u64; 32]]) -> u32
        requires { Joins self.now.rules.now self.now.plan.now self.now.map.now p m sets.now totals.old }
        ensures { MadeAs (row_at self.now.map.now p m) (count_in self.now.rules.now) (λ A. only (wanted self.now.plan.now m) A (cuts_sum self.now.rules.now self.now.plan.now self.now.map.now totals.old p m A)) totals.old totals.new result }
    {
        let row = maps::row_at(self.map, p, m);
        clear(sets[row], row, totals);
        let wanted = self.plan[WANTED][m];
        let mut set = sets::none();
        for k in sets::each(self.plan[CUTS][m]) {
            let s = Split {
                row,
                left: maps::row_at(self.map, p, k),
                right: maps::row_at(self.map, p + k, m - k),
            };
            set = sets::either(set, self.add_split(wanted, s, sets, totals));
        }
        set
    }

    // The row of a span, and its set.
    fn fill_span(&self, p: usize, m: usize, sets: &mut [u32], totals: &mut [[u64; 32]])
        requires { Spans self.now.rules.now self.now.plan.now self.now.map.now p m sets.old totals.old }
        ensures { SpannedAs self.now.rules.now self.now.plan.now self.now.map.now p m sets.old totals.old sets.new totals.new }
    {
        let row = maps::row_at(self.map, p, m);
        if m == 1 {
            sets[row] = self.fill_leaf(p, sets[row], totals);
            return;
        }
        sets[row] = self.fill_cuts(p, m, &sets[..], totals);
    }

    // The rows of the needed spans of m positions.
    fn fill_length(&self, m: usize, sets: &mut [u32], totals: &mut [[u64; 32]])
        requires { (first n : ℕ) × Lengthens self.now.rules.now self.now.plan.now self.now.map.now first n m sets.old totals.old }
        ensures { (first n : ℕ) → Lengthens self.now.rules.now self.now.plan.now self.now.map.now first n m sets.old totals.old → LengthenedAs self.now.rules.now self.now.plan.now self.now.map.now first n m 0 sets.old totals.old sets.new totals.new }
    {
        for p in sets::each(self.plan[SPOTS][m]) {
            self.fill_span(p, m, sets, totals);
        }
    }
}

// ---- all

// The chart of the map's letters, shorter spans first. The sets are those that the chart before left, if any.
pub fn fill(
    rules: &[[u8; 256]],
    plan: &[[u32; 32]; 4],
    map: &[[u16; 16]; 17],
    sets: &mut [u32],
    totals: &mut [[u64; 32]],
)
    requires { (first : ℕ) × Fills rules.now plan.now map.now first (length_in plan.now) sets.old totals.old }
    ensures { (first : ℕ) → Fills rules.now plan.now map.now first (length_in plan.now) sets.old totals.old → ChartedAs rules.now plan.now map.now first (length_in plan.now) totals.old sets.new totals.new }
{
    let sources = Sources { rules, plan, map };
    for m in 1..plan::length(plan) + 1 {
        sources.fill_length(m, sets, totals);
    }
}
