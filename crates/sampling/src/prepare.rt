// What *Left* and every *Draw* need: the tables of the grammar, then the heard derivation numbers, rising, each once.
ghost use Rattle.std.specs.Prelude.{◌≡◌, ◌≤◌, length};
ghost use Rattle.sorting.specs.Inner.Sorted.{SortedAs};
ghost use Rattle.sampling.specs.Question.{plainly, asked};
ghost use Rattle.counting.specs.Inner.Preparing as tables;
ghost use Rattle.charts.specs.Inner.Maps.{counts_map};
ghost use Rattle.ranking.specs.Inner.Ranking.{RoomFor};
ghost use Rattle.sampling.specs.Inner.Collect.{Collects};
ghost use Rattle.sampling.specs.Inner.Patterns.{behind_of};
ghost use Rattle.sampling.specs.Inner.Preparing.{AskedAs, OrderedAs, NumbersBy, NumbersSought, NumbersAs, FittingSought, FittedAs, RecordsSought, MatchingSought, RecordedAs, Lent, LentMatching, SampledAs};

use crate::heard::Sources;
use crate::pattern;
use crate::question::Question;
use answers::refusal::Refusal;
use charts::{maps, plan, ready};
use counting::letters::ANY;
use counting::{prepare, tallies};
use grammar::{fields, rules};
use history::checks;

// Numbers of up to 1,000 records into rising order, each once; how many they are. A short history is spared the clearing of much room.
// Stays: the spare room is a line in each branch; with its size as a const parameter there would be one function more.
fn order(numbers: &mut [u64]) -> usize
    requires { length numbers.old ≤ 1000 }
    ensures { SortedAs numbers.old numbers.new result }
{
    if numbers.len() <= 100 {
        let mut spare = [0u64; 100];
        return sorting::sort(numbers, &mut spare);
    }
    let mut spare = [0u64; 1000];
    sorting::sort(numbers, &mut spare)
}

// The first k of the numbers, if there are so many.
fn order_first(numbers: &mut [u64], k: usize) -> usize
    requires { k ≤ 1000 }
    ensures { OrderedAs k numbers.old numbers.new result }
{
    if numbers.len() < k {
        return 0;
    }
    order(&mut numbers[0..k])
}

// The places of the heard derivations, rising, each once, with the tables for the charts of their sentences. Where room is lent for it, where they end.
pub fn numbers_by(
    sources: &Sources<'_>,
    map: &mut [[u16; 16]; 17],
    h: &[u8],
    question: Question,
    totals: &mut [[u64; 32]],
    numbers: &mut [u64],
    ends: &mut [u64],
) -> Result<usize, Refusal>
    requires { Collects sources.now.rules.now sources.now.plan.now map.old sources.now.measure.now h.now question.length totals.old numbers.old }
    ensures { NumbersBy sources.now.rules.now sources.now.plan.now sources.now.measure.now h.now question.length question.voice totals.new numbers.new ends.new result }
{
    let k = sources.collect(map, h, question, totals, numbers, ends)?;
    let m = order_first(numbers, k);
    order_first(ends, k);
    Ok(m)
}

// The heard numbers of a history, with room for the charts of its sentences: without a pattern the counts measure.
fn heard_numbers_in<const ROWS: usize>(
    rules: &[[u8; 256]],
    totals: &[[u64; 32]],
    h: &[u8],
    question: Question,
    numbers: &mut [u64],
) -> Result<usize, Refusal>
    requires { NumbersSought rules.now totals.now h.now question.length numbers.old × RoomFor question.length ROWS }
    ensures { NumbersAs rules.now h.now (plainly question.length question.voice) numbers.new result }
{
    let n = question.length as usize;
    let mut chart = [[0u64; 32]; ROWS];
    tallies::copy(totals, n, &mut chart);
    let mut linked = [[0u8; 256]; 13];
    rules::copy(rules, &mut linked);
    let mut plan = [[0u32; 32]; 4];
    let mut map = [[0u16; 16]; 17];
    ready::ready(&mut linked, &chart, n, &mut plan, &mut map);
    let counts = maps::EVERYWHERE;
    let mut ends = [0u64; 0];
    let sources = Sources {
        rules: &linked,
        plan: &plan,
        measure: &counts,
    };
    numbers_by(
        &sources, &mut map, h, question, &mut chart, numbers, &mut ends,
    )
}

// A chart of up to five words takes 33 rows, of sixteen 154.
fn heard_numbers(
    rules: &[[u8; 256]],
    totals: &[[u64; 32]],
    h: &[u8],
    question: Question,
    numbers: &mut [u64],
) -> Result<usize, Refusal>
    requires { NumbersSought rules.now totals.now h.now question.length numbers.old }
    ensures { NumbersAs rules.now h.now (plainly question.length question.voice) numbers.new result }
{
    if question.length <= 5 {
        heard_numbers_in::<33>(rules, totals, h, question, numbers)
    } else {
        heard_numbers_in::<154>(rules, totals, h, question, numbers)
    }
}

// The first row behind a pattern's chart: one of up to five words ends at 33, of sixteen at 154.
fn behind(n: u64) -> usize
    requires { n ≤ 16 }
    ensures { result ≡ behind_of n }
{
    if n <= 5 { 33 } else { 154 }
}

// The pattern's chart, and the places of the heard derivations that fit, of a history with so many records.
fn fitting_numbers(
    rules: &mut [[u8; 256]],
    totals: &mut [[u64; 32]],
    h: &[u8],
    question: Question,
    pattern: &[u8],
    records: u64,
    choice: &mut [[u16; 16]; 17],
    numbers: &mut [u64],
) -> Result<usize, Refusal>
    requires { FittingSought rules.old totals.old h.now (asked question pattern.now) records choice.old numbers.old }
    ensures { FittedAs rules.old h.now (asked question pattern.now) rules.new totals.new choice.new numbers.new result }
{
    let mut plan = [[0u32; 32]; 4];
    pattern::fill(rules, pattern, &mut plan, choice, totals);
    if records == 0 {
        return Ok(0);
    }
    let mut map = [[0u16; 16]; 17];
    plan::rows(&plan, behind(question.length), &mut map);
    let mut ends = [0u64; 0];
    let sources = Sources {
        rules,
        plan: &plan,
        measure: choice,
    };
    numbers_by(&sources, &mut map, h, question, totals, numbers, &mut ends)
}

// 11 to 15. Without a pattern no chart is made for a history without records.
fn records(
    rules: &[[u8; 256]],
    totals: &[[u64; 32]],
    h: &[u8],
    question: Question,
    numbers: &mut [u64],
) -> Result<usize, Refusal>
    requires { RecordsSought rules.now totals.now h.now question.length numbers.old }
    ensures { RecordedAs rules.now h.now (plainly question.length question.voice) rules.now totals.now counts_map numbers.new result }
{
    let k = checks::check(h)?;
    if k == 0 {
        return Ok(0);
    }
    heard_numbers(rules, totals, h, question, numbers)
}

// With a pattern its chart is needed in any case.
// Stays: one way for the calls with and without a pattern was tried, and made the plain ones slower (docs/changes/U1.md).
fn records_matching(
    rules: &mut [[u8; 256]],
    totals: &mut [[u64; 32]],
    h: &[u8],
    question: Question,
    pattern: &[u8],
    choice: &mut [[u16; 16]; 17],
    numbers: &mut [u64],
) -> Result<usize, Refusal>
    requires { MatchingSought rules.old totals.old h.now (asked question pattern.now) choice.old numbers.old }
    ensures { RecordedAs rules.old h.now (asked question pattern.now) rules.new totals.new choice.new numbers.new result }
{
    let k = checks::check(h)?;
    fitting_numbers(rules, totals, h, question, pattern, k, choice, numbers)
}

// 1 to 9, 22, 10 and 21.
pub fn ask(
    g: &[u8],
    question: Question,
    pattern: &[u8],
    rules: &mut [[u8; 256]],
    totals: &mut [[u64; 32]],
) -> Result<(), Refusal>
    requires { tables.Lent rules.old totals.old }
    ensures { AskedAs g.now (asked question pattern.now) rules.old rules.new totals.old totals.new result }
{
    prepare::open(g, question.length, rules)?;
    if 15 < question.voice {
        return Err(Refusal::BadVoice);
    }
    if !tallies::fill(rules, ANY, question.length as usize, 0, totals) {
        return Err(Refusal::TooManyDerivations);
    }
    if pattern::bad(pattern, fields::words(g)) {
        return Err(Refusal::BadPattern);
    }
    Ok(())
}

// 1 to 9, 22 and 10, then 11 to 15.
pub fn prepare(
    g: &[u8],
    h: &[u8],
    question: Question,
    rules: &mut [[u8; 256]],
    totals: &mut [[u64; 32]],
    numbers: &mut [u64],
) -> Result<usize, Refusal>
    requires { Lent h.now rules.old totals.old numbers.old }
    ensures { SampledAs g.now h.now (plainly question.length question.voice) rules.new totals.new counts_map numbers.new result }
{
    ask(g, question, &g[0..0], rules, totals)?;
    records(rules, totals, h, question, numbers)
}

// 1 to 9, 22, 10 and 21, then 11 to 15. The map chooses by the pattern's chart.
// Stays: one way for the calls with and without a pattern was tried, and made the plain ones slower (docs/changes/U1.md).
pub fn prepare_matching(
    g: &[u8],
    h: &[u8],
    question: Question,
    pattern: &[u8],
    rules: &mut [[u8; 256]],
    totals: &mut [[u64; 32]],
    choice: &mut [[u16; 16]; 17],
    numbers: &mut [u64],
) -> Result<usize, Refusal>
    requires { LentMatching h.now (asked question pattern.now) rules.old totals.old choice.old numbers.old }
    ensures { SampledAs g.now h.now (asked question pattern.now) rules.new totals.new choice.new numbers.new result }
{
    ask(g, question, pattern, rules, totals)?;
    records_matching(rules, totals, h, question, pattern, choice, numbers)
}
