// What a draw by weights needs: the tables of the grammar with the totals by weight, then the heard derivations' first tickets, rising, each once.
ghost use Rattle.std.specs.Prelude.{◌≡◌, List, ℕ, ◌≤◌};
ghost use Rattle.answers.specs.Answer.{first_that_applies};
ghost use Rattle.answers.specs.Inner.Refusals.{refusal_number};
ghost use Rattle.grammar.specs.Inner.Rules.{Ruled};
ghost use Rattle.weighing.specs.Inner.Tables.{last_rows, Lent, WeighedAs};
ghost use Rattle.weighing.specs.Inner.Preparing.{FirstsSought, FirstsAs, RecordsSought, RecordsAs, Called, PreparedAs};

use crate::{sums, weights};
use answers::refusal::Refusal;
use charts::maps::BEHIND_WEIGHTS;
use charts::{maps, plan, ready};
use counting::letters::{ANY, WEIGHED};
use counting::{prepare as tables, tallies};
use grammar::fields;
use history::checks;
use sampling::heard::Sources;
use sampling::prepare;
use sampling::question::Question;

// 10, which the counts alone tell, or else the refusal that is known to apply.
fn refusal(rules: &[[u8; 256]], n: usize, known: Refusal) -> Refusal
    requires { Ruled rules.now × (1 ≤ n) × (n ≤ 16) }
    ensures { refusal_number result ≡ first_that_applies (last_rows rules.now n (refusal_number known)) }
{
    let mut counts = [[0u64; 32]; 17];
    if tallies::fill(rules, ANY, n, 0, &mut counts) {
        known
    } else {
        Refusal::TooManyDerivations
    }
}

// 1 to 9, 22, 10, 24 and 25. No count is above its total weight, so the counts are filled in beside the total weights, and fit where these do.
fn weigh(
    g: &[u8],
    question: Question,
    weights: &[u8],
    rules: &mut [[u8; 256]],
    totals: &mut [[u64; 32]],
) -> Result<(), Refusal>
    requires { Lent rules.old totals.old }
    ensures { WeighedAs g.now question.length question.voice weights.now rules.new totals.old totals.new result }
{
    tables::open(g, question.length, rules)?;
    if 15 < question.voice {
        return Err(Refusal::BadVoice);
    }
    let n = question.length as usize;
    if weights::bad(weights, fields::words(g)) {
        return Err(refusal(rules, n, Refusal::BadWeights));
    }
    weights::set(weights, rules);
    if !tallies::fill(rules, WEIGHED, n, maps::WEIGHTS, totals) {
        return Err(refusal(rules, n, Refusal::TooManyTickets));
    }
    Ok(())
}

// The first tickets of the heard derivations, and where they end: their sentences' charts stand behind the totals by weight, which measure.
fn first_tickets(
    rules: &mut [[u8; 256]],
    totals: &mut [[u64; 32]],
    h: &[u8],
    question: Question,
    numbers: &mut [u64],
    ends: &mut [u64],
) -> Result<usize, Refusal>
    requires { (g weights : List ℕ) × FirstsSought g question.length weights rules.old totals.old h.now numbers.old ends.old }
    ensures { (g weights : List ℕ) → FirstsSought g question.length weights rules.old totals.old h.now numbers.old ends.old → FirstsAs rules.old h.now question.length question.voice weights rules.new totals.new numbers.new ends.new result }
{
    weights::sum_up(rules);
    let mut plan = [[0u32; 32]; 4];
    let mut map = [[0u16; 16]; 17];
    ready::ready(rules, totals, question.length as usize, &mut plan, &mut map);
    plan::rows(&plan, BEHIND_WEIGHTS, &mut map);
    let measure = maps::BY_WEIGHT;
    let sources = Sources {
        rules,
        plan: &plan,
        measure: &measure,
    };
    prepare::numbers_by(&sources, &mut map, h, question, totals, numbers, ends)
}

// 11 to 15. No chart is made for a history without records.
fn records(
    rules: &mut [[u8; 256]],
    totals: &mut [[u64; 32]],
    h: &[u8],
    question: Question,
    numbers: &mut [u64],
    ends: &mut [u64],
) -> Result<usize, Refusal>
    requires { (g weights : List ℕ) × RecordsSought g question.length weights rules.old totals.old h.now numbers.old ends.old }
    ensures { (g weights : List ℕ) → RecordsSought g question.length weights rules.old totals.old h.now numbers.old ends.old → RecordsAs rules.old h.now question.length question.voice weights rules.new totals.new numbers.new ends.new result }
{
    let k = checks::check(h)?;
    if k == 0 {
        return Ok(0);
    }
    first_tickets(rules, totals, h, question, numbers, ends)
}

// 1 to 9, 22, 10, 24 and 25, then 11 to 15; then what the heard ones weigh, where it was told where they end.
// Stays: the clauses, which may not change, speak of the four lent buffers one by one, and there is no heap to make them in.
pub fn prepare(
    g: &[u8],
    h: &[u8],
    question: Question,
    weights: &[u8],
    rules: &mut [[u8; 256]],
    totals: &mut [[u64; 32]],
    numbers: &mut [u64],
    sums: &mut [u64],
) -> Result<usize, Refusal>
    requires { Called question.length h.now rules.old totals.old numbers.old sums.old }
    ensures { PreparedAs g.now h.now question.length question.voice weights.now rules.new totals.new numbers.new sums.new result }
{
    weigh(g, question, weights, rules, totals)?;
    let k = records(rules, totals, h, question, numbers, sums)?;
    sums::fill(&numbers[0..k], sums);
    Ok(k)
}
