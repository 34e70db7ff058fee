// The table of totals by the names of its rows: those of the length m at `totals[m][a]`` where they are needed, or that one of them is above 2^64 - 1.
// A letter says what the words count for: by ANY the totals are the counts T.
ghost use Rattle.std.specs.Prelude.{◌≡◌, List, ℕ, ◌+◌, ◌*◌, ◌-◌, ◌≤◌, ◌<◌, length, take, drop};
ghost use Rattle.lists.specs.Joined.{sum_over};
ghost use Rattle.lists.specs.Inner.Tables.{CopiedAs};
ghost use Rattle.grammar.specs.Inner.Rules.{ruled, words_in};
ghost use Rattle.counting.specs.Totals.{total_by};
ghost use Rattle.counting.specs.Refusals.{most};
ghost use Rattle.counting.specs.Inner.Counted.{count_at, longest_at};
ghost use Rattle.counting.specs.Inner.Letters.{any, by_letter, weighed};
ghost use Rattle.counting.specs.Inner.Filling.{TalliedAs, BothAs, Beside, BesideAs, part_sum, no_counts, Halves, HalvesBeside, Deriving, DerivingBeside, WordsBy, longer, stored, PlacedAs, RowFilling, RowFilledAs, Filling, FilledAs};

use crate::letters::ANY;
use crate::{letters, needs};
use grammar::rules;

// The longest length at which a nonterminal has a derivation; the rows 1 to 16 are those of their lengths.
pub const LONGEST: usize = 0;

// The total of a and m, where it is needed; else 0.
pub fn count_at(totals: &[[u64; 32]], a: usize, m: usize) -> u64
    requires { (17 ≤ length totals.now) × (a < 32) × (m ≤ 16) }
    ensures { result ≡ count_at totals.now a m }
{
    totals[m][a]
}

pub fn longest_at(totals: &[[u64; 32]], a: usize) -> u64
    requires { (17 ≤ length totals.now) × (a < 32) }
    ensures { result ≡ longest_at totals.now a }
{
    totals[LONGEST][a]
}

// What is counted beside a total: nothing, or the derivations, by the table of their counts.
trait Counts: Copy {
    // The counts; all 0 where nothing is counted.
    ghost table: { Self → List (List ℕ) };

    // What a word counts for.
    ghost each: { ℕ → ℕ };

    // A product of a pair rule's counts more, for the length m and the left length k.
    fn add(self, count: u64, b: usize, c: usize, m: usize, k: usize) -> u64
        requires { (17 ≤ length (table self)) × (b < 32) × (c < 32) × (m ≤ 16) × (k ≤ m) × (count + count_at (table self) b k * count_at (table self) c (m - k) ≤ most) }
        ensures { result ≡ count + count_at (table self) b k * count_at (table self) c (m - k) };

    // What the words of a count for together.
    fn words(self, rules: &[[u8; 256]], a: usize) -> u64
        requires { WordsBy rules.now any a }
        ensures { result ≡ sum_over each (words_in rules.now a) };
}

#[derive(Clone, Copy)]
struct NoCounts;

impl Counts for NoCounts {
    ghost table = { λ s. no_counts };

    ghost each = { λ w. 0 };

    fn add(self, count: u64, b: usize, c: usize, m: usize, k: usize) -> u64 {
        count
    }

    fn words(self, rules: &[[u8; 256]], a: usize) -> u64 {
        0
    }
}

#[derive(Clone, Copy)]
struct CountsIn<'a>(&'a [[u64; 32]]);

impl<'a> Counts for CountsIn<'a> {
    ghost table = { λ s. s.0.now };

    ghost each = { λ w. 1 };

    fn add(self, count: u64, b: usize, c: usize, m: usize, k: usize) -> u64 {
        count + count_at(self.0, b, k) * count_at(self.0, c, m - k)
    }

    fn words(self, rules: &[[u8; 256]], a: usize) -> u64 {
        words(rules, ANY, a)
    }
}

// The product of x and y, if it fits. Where both are below 2^32 it does, and there is no division.
fn product(x: u64, y: u64) -> Option<u64>
    ensures { TalliedAs (x * y) result }
{
    if x < 4294967296 && y < 4294967296 {
        return Some(x * y);
    }
    x.checked_mul(y)
}

// A product more.
fn add_product(sum: u64, x: u64, y: u64) -> Option<u64>
    ensures { TalliedAs (sum + x * y) result }
{
    sum.checked_add(product(x, y)?)
}

// The sum of 001's formula 4a for the pair rule (b, c) and the length m, added to what was there before: product after product, the left length k
// upward, T(b, k) for its g1(k) and T(c, m - k) for its g2(n - k), up to the left length `to`. Left out are products that are 0: 4a's k = 0 and k = n,
// as no derivation is empty; the first left lengths, where the right half is longer than c's longest; the last, where the left half is longer than
// b's. What that comes to by T: `InOrder` in specs/Inner. Beside it stands the same sum of the counts. No count is above its total: where the totals'
// sum fits, so does that of the counts, and where a total is 0, so is the count.
fn add_pair<C: Counts>(
    totals: &[[u64; 32]],
    counts: C,
    b: usize,
    c: usize,
    m: usize,
    to: usize,
    before: (u64, u64),
) -> Option<(u64, u64)>
    requires halves { Halves totals.now b c m to }
    requires beside { HalvesBeside totals.now (C.table counts) b c m before.0 before.1 }
    ensures { BothAs (before.0 + part_sum (count_at totals.now) b c m to) (before.1 + part_sum (count_at (C.table counts)) b c m to) result }
{
    // Up to `over` the right half is longer than its longest derivation; past `last` the left half is, or the bound ends. Where no length is between them,
    // as for many rules and lengths, the loop is not begun: an empty one took half as much time again.
    let over = (m - 1).saturating_sub(longest_at(totals, c) as usize);
    let last = to.min(longest_at(totals, b) as usize);
    if last <= over {
        return Some(before);
    }
    let (mut total, mut count) = before;
    for k in over + 1..last + 1 {
        total = add_product(total, count_at(totals, b, k), count_at(totals, c, m - k))?;
        count = counts.add(count, b, c, m, k);
    }
    Some((total, count))
}

// The total of a and m for m of 2 or more, by the pair rules of a, and what is counted beside it.
fn derive<C: Counts>(
    rules: &[[u8; 256]],
    totals: &[[u64; 32]],
    counts: C,
    a: usize,
    m: usize,
) -> Option<(u64, u64)>
    requires { ((u : ℕ → ℕ) × DerivingBeside rules.now u C.each totals.now (C.table counts) m a) × (2 ≤ m) }
    ensures { (u : ℕ → ℕ) → DerivingBeside rules.now u C.each totals.now (C.table counts) m a → BothAs (total_by (ruled rules.now) u a m) (total_by (ruled rules.now) C.each a m) result }
{
    let mut total = 0;
    let mut count = 0;
    for i in rules::pairs_from(rules, a)..rules::pairs_from(rules, a + 1) {
        let b = rules::left_at(rules, i);
        let c = rules::right_at(rules, i);
        (total, count) = add_pair(totals, counts, b, c, m, m - 1, (total, count))?;
    }
    Some((total, count))
}

// What the words of a count for together: by ANY as many as they are.
fn words(rules: &[[u8; 256]], letter: u16, a: usize) -> u64
    requires { WordsBy rules.now letter a }
    ensures { result ≡ sum_over (by_letter rules.now letter) (words_in rules.now a) }
{
    let from = rules::words_from(rules, a);
    let to = rules::words_from(rules, a + 1);
    if letter == ANY {
        return (to - from) as u64;
    }
    let mut sum = 0;
    for i in from..to {
        sum += letters::weight(rules, letter, rules::word_at(rules, i));
    }
    sum
}

// The total of a and m, and what is counted beside it: by the word rules of a for the length 1, by its pair rules for a greater one.
fn derivations<C: Counts>(
    rules: &[[u8; 256]],
    letter: u16,
    totals: &[[u64; 32]],
    counts: C,
    a: usize,
    m: usize,
) -> Option<(u64, u64)>
    requires { DerivingBeside rules.now (by_letter rules.now letter) C.each totals.now (C.table counts) m a × (letter ≡ weighed → 14 ≤ length rules.now) }
    ensures { BothAs (total_by (ruled rules.now) (by_letter rules.now letter) a m) (total_by (ruled rules.now) C.each a m) result }
{
    if m == 1 {
        return Some((words(rules, letter, a), counts.words(rules, a)));
    }
    derive(rules, totals, counts, a, m)
}

// The total of a and m is v.
fn put(totals: &mut [[u64; 32]], a: usize, m: usize, v: u64)
    requires { (17 ≤ length totals.old) × (a < 32) × (m ≤ 16) }
    ensures { totals.new ≡ stored totals.old a m v }
{
    let longest = if v == 0 { totals[LONGEST][a] } else { m as u64 };
    totals[m][a] = v;
    totals[LONGEST][a] = longest;
}

// The total of a and m is v, in the rows from `at` on, and its count is c, in those before.
fn put_beside(totals: &mut [[u64; 32]], at: usize, a: usize, m: usize, v: u64, c: u64)
    requires { (17 ≤ at) × (at + 17 ≤ length totals.old) × (a < 32) × (m ≤ 16) }
    ensures { (drop at totals.new ≡ stored (drop at totals.old) a m v) × (take at totals.new ≡ stored (take at totals.old) a m c) }
{
    put(&mut totals[at..], a, m, v);
    put(&mut totals[0..at], a, m, c);
}

// The total of a and m into its place in the rows from `at` on, and where there are rows before these the count into its place there; false where the
// total is above 2^64 - 1.
fn place(
    rules: &[[u8; 256]],
    letter: u16,
    at: usize,
    totals: &mut [[u64; 32]],
    a: usize,
    m: usize,
) -> bool
    requires { Beside rules.now letter at (λ u t. Deriving rules.now u t m a) totals.old }
    ensures { BesideAs rules.now letter at (λ u b t. PlacedAs rules.now u b t m a) totals.old totals.new result }
{
    if at == 0 {
        let Some((v, _)) = derivations(rules, letter, totals, NoCounts, a, m) else {
            return false;
        };
        put(totals, a, m, v);
        return true;
    }
    let counts = CountsIn(&totals[0..at]);
    let Some((v, c)) = derivations(rules, letter, &totals[at..], counts, a, m) else {
        return false;
    };
    put_beside(totals, at, a, m, v, c);
    true
}

// The row m, which is all 0, for a set of nonterminals; false where some total in it is above 2^64 - 1.
fn row(
    rules: &[[u8; 256]],
    letter: u16,
    set: u32,
    m: usize,
    at: usize,
    totals: &mut [[u64; 32]],
) -> bool
    requires { Beside rules.now letter at (λ u t. RowFilling rules.now u t m set) totals.old }
    ensures { BesideAs rules.now letter at (λ u b t. RowFilledAs rules.now u b t m set) totals.old totals.new result }
{
    for a in sets::each(set) {
        if !place(rules, letter, at, totals, a, m) {
            return false;
        }
    }
    true
}

// The rows from 1 to n, in a table whose rows up to 16 are all 0: the totals of the needed pairs; false where one of them is above 2^64 - 1. What no
// sentence reaches may be above it: it isn't computed. That table is the rows from `at` on. Where there are rows before them, these are the table of the
// counts, filled in beside the totals; then each word must count for something by the letter, and the counts fit where the totals do.
pub fn fill(rules: &[[u8; 256]], letter: u16, n: usize, at: usize, totals: &mut [[u64; 32]]) -> bool
    requires { Beside rules.now letter at (λ u t. Filling rules.now n t) totals.old }
    ensures { BesideAs rules.now letter at (λ u b t. FilledAs rules.now u n b t) totals.old totals.new result }
{
    let mut needs = [0u32; 17];
    needs::find(rules, n, &mut needs);
    for m in 1..n + 1 {
        if !row(rules, letter, needs[m], m, at, totals) {
            return false;
        }
    }
    true
}

// The counts up to the length n into a larger table.
pub fn copy(from: &[[u64; 32]], n: usize, to: &mut [[u64; 32]])
    requires { (n ≤ 16) × (17 ≤ length from.now) × (17 ≤ length to.old) }
    ensures { CopiedAs (n + 1) from.now to.old to.new }
{
    to[0..n + 1].copy_from_slice(&from[0..n + 1]);
}
