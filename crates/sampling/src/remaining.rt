// *Left*: how many derivations there are, how many of them are heard, and how many are left; with a pattern, of those that fit.
ghost use Rattle.std.specs.Prelude.{◌≡◌, [], ◌∷◌, ◌-◌, ◌≤◌, Ok};
ghost use Rattle.answers.specs.Answer.{given};
ghost use Rattle.sampling.specs.Answers.{remaining_to};
ghost use Rattle.sampling.specs.Question.{plainly, matching, asked};
ghost use Rattle.sampling.specs.Inner.Says.{remaining_says};
ghost use Rattle.sampling.specs.Inner.Patterns.{RowsFor};
ghost use Rattle.sampling.specs.Inner.Preparing.{PlacesFor};

use crate::prepare;
use crate::question::Question;
use answers::refusal::Refusal;
use ranking::unrank;

// How many derivations there are, how many of them are heard, and how many are left.
#[derive(Clone, Copy)]
pub struct Left {
    pub total: u64,
    pub heard: u64,
    pub left: u64,
}

fn figures(total: u64, heard: u64) -> Left
    requires { heard ≤ total }
    ensures { remaining_says (Ok result) ≡ given (total ∷ heard ∷ (total - heard) ∷ []) [] }
{
    Left {
        total,
        heard,
        left: total - heard,
    }
}

// With room for the heard numbers.
fn remaining_in<const N: usize>(g: &[u8], h: &[u8], question: Question) -> Result<Left, Refusal>
    requires { PlacesFor h.now N }
    ensures { remaining_says result ≡ remaining_to g.now h.now (plainly question.length question.voice) }
{
    let mut rules = [[0u8; 256]; 4];
    let mut totals = [[0u64; 32]; 17];
    let mut numbers = [0u64; N];
    let k = prepare::prepare(g, h, question, &mut rules, &mut totals, &mut numbers)?;
    let total = unrank::count(&rules, &totals, question.length as usize);
    Ok(figures(total, k as u64))
}

// 2,004 bytes have 100 records at most, and fewer than 24 have none: clearing room for 1,000 numbers is much of the time that a short history takes.
pub fn remaining(g: &[u8], h: &[u8], question: Question) -> Result<Left, Refusal>
    ensures { remaining_says result ≡ remaining_to g.now h.now (plainly question.length question.voice) }
{
    // Stays: the three sizes stand in four calls. One function that chose for all of them would answer a kind of room, and each call would still match on
    // it: no plainer.
    if h.len() < 24 {
        remaining_in::<1>(g, h, question)
    } else if h.len() <= 2004 {
        remaining_in::<100>(g, h, question)
    } else {
        remaining_in::<1000>(g, h, question)
    }
}

// With room for the tables and the heard places.
// Stays: one way for the calls with and without a pattern was tried, and made the plain ones slower (docs/changes/U1.md).
fn remaining_matching_in<const ROWS: usize, const N: usize>(
    g: &[u8],
    h: &[u8],
    question: Question,
    pattern: &[u8],
) -> Result<Left, Refusal>
    requires { RowsFor (asked question pattern.now) ROWS × PlacesFor h.now N }
    ensures { remaining_says result ≡ remaining_to g.now h.now (asked question pattern.now) }
{
    let mut rules = [[0u8; 256]; 13];
    let mut totals = [[0u64; 32]; ROWS];
    let mut choice = [[0u16; 16]; 17];
    let mut numbers = [0u64; N];
    let k = prepare::prepare_matching(
        g,
        h,
        question,
        pattern,
        &mut rules,
        &mut totals,
        &mut choice,
        &mut numbers,
    )?;
    let total = unrank::total(&rules, &totals, &choice, question.length as usize);
    Ok(figures(total, k as u64))
}

// The room for the places as without a pattern.
fn remaining_matching_by<const ROWS: usize>(
    g: &[u8],
    h: &[u8],
    question: Question,
    pattern: &[u8],
) -> Result<Left, Refusal>
    requires { RowsFor (asked question pattern.now) ROWS }
    ensures { remaining_says result ≡ remaining_to g.now h.now (asked question pattern.now) }
{
    if h.len() < 24 {
        remaining_matching_in::<ROWS, 1>(g, h, question, pattern)
    } else if h.len() <= 2004 {
        remaining_matching_in::<ROWS, 100>(g, h, question, pattern)
    } else {
        remaining_matching_in::<ROWS, 1000>(g, h, question, pattern)
    }
}

// The rules with room for their links. Behind the pattern's chart the table of totals has room for that of a heard sentence: 15 rows for five words, 136
// for sixteen.
pub fn remaining_matching(g: &[u8], h: &[u8], pattern: &[u8], voice: u64) -> Result<Left, Refusal>
    ensures { remaining_says result ≡ remaining_to g.now h.now (matching pattern.now voice) }
{
    let question = Question {
        length: pattern.len() as u64,
        voice,
    };
    if pattern.len() <= 5 {
        remaining_matching_by::<48>(g, h, question, pattern)
    } else {
        remaining_matching_by::<290>(g, h, question, pattern)
    }
}
