// *Draw*: the unheard derivation that has so many unheard ones before it; with a pattern, of those that fit.
ghost use Rattle.std.specs.Prelude.{◌≡◌, []};
ghost use Rattle.charts.specs.Inner.Maps.{counts_map, Everywhere};
ghost use Rattle.sampling.specs.Answers.{draw_to};
ghost use Rattle.sampling.specs.Question.{plainly, matching, asked};
ghost use Rattle.sampling.specs.Inner.Says.{draw_says};
ghost use Rattle.sampling.specs.Inner.Drawing.{DrawSought, draw_skipping};
ghost use Rattle.sampling.specs.Inner.Patterns.{RowsFor};
ghost use Rattle.sampling.specs.Inner.Preparing.{PlacesFor};

use crate::prepare;
use crate::question::Question;
use crate::skip::{DrawNumber, Heard};
use answers::refusal::Refusal;
use charts::maps;
use ranking::unrank;
use ranking::unrank::DerivationNumber;
use walk::Tables;

// How many are left to draw from, and the number of the derivation drawn.
#[derive(Clone, Copy)]
pub struct Drawn {
    pub left: u64,
    pub number: DerivationNumber,
}

// With the tables, the choice and the heard ones' tickets at hand. Inlined: handed to a call, the two structs would be copied.
#[inline(always)]
pub fn draw_from(
    tables: Tables<'_>,
    n: usize,
    heard: Heard<'_>,
    q: DrawNumber,
    out: &mut [u8],
) -> Result<Drawn, Refusal>
    requires { DrawSought tables.rules.now tables.totals.now tables.choice.now n heard.firsts.now heard.sums.now × Everywhere tables.measure.now }
    ensures { draw_says result out.new ≡ draw_skipping tables.entry.rules.now tables.entry.choice.now n heard.entry.firsts.now heard.entry.sums.now q.0 out.old }
{
    let total = unrank::total(tables.rules, tables.totals, tables.choice, n);
    let left = total - heard.passed(heard.firsts.len());
    if left <= q.0 {
        return Err(Refusal::NumberBeyond);
    }
    if out.len() < n {
        return Err(Refusal::BufferTooShort);
    }
    let d = heard.skip(q);
    let number = unrank::write(tables, n, d, out);
    Ok(Drawn { left, number })
}

// Without a pattern each derivation has one ticket: many draws share one preparation.
pub fn draw_prepared(
    rules: &[[u8; 256]],
    totals: &[[u64; 32]],
    n: usize,
    heard: &[u64],
    q: DrawNumber,
    out: &mut [u8],
) -> Result<Drawn, Refusal>
    requires { DrawSought rules.now totals.now counts_map n heard.now [] }
    ensures { draw_says result out.new ≡ draw_skipping rules.now counts_map n heard.now [] q.0 out.old }
{
    let counts = maps::EVERYWHERE;
    let tables = Tables {
        rules,
        totals,
        choice: &counts,
        measure: &counts,
    };
    let heard = Heard {
        firsts: heard,
        sums: &heard[0..0],
    };
    draw_from(tables, n, heard, q, out)
}

// With room for the heard numbers.
fn draw_in<const N: usize>(
    g: &[u8],
    h: &[u8],
    question: Question,
    q: DrawNumber,
    out: &mut [u8],
) -> Result<Drawn, Refusal>
    requires { PlacesFor h.now N }
    ensures { draw_says result out.new ≡ draw_to g.now h.now (plainly question.length question.voice) q.0 out.old }
{
    let mut rules = [[0u8; 256]; 4];
    let mut totals = [[0u64; 32]; 17];
    let mut numbers = [0u64; N];
    let k = prepare::prepare(g, h, question, &mut rules, &mut totals, &mut numbers)?;
    let n = question.length as usize;
    let places = &numbers[..];
    draw_prepared(&rules, &totals, n, &places[0..k], q, out)
}

// The room as for *Left*.
pub fn draw(
    g: &[u8],
    h: &[u8],
    question: Question,
    q: DrawNumber,
    out: &mut [u8],
) -> Result<Drawn, Refusal>
    ensures { draw_says result out.new ≡ draw_to g.now h.now (plainly question.length question.voice) q.0 out.old }
{
    if h.len() < 24 {
        draw_in::<1>(g, h, question, q, out)
    } else if h.len() <= 2004 {
        draw_in::<100>(g, h, question, q, out)
    } else {
        draw_in::<1000>(g, h, question, q, out)
    }
}

// With room for the tables and the heard places.
// Stays: one way for the calls with and without a pattern was tried, and made the plain ones slower (docs/changes/U1.md).
fn draw_matching_in<const ROWS: usize, const N: usize>(
    g: &[u8],
    h: &[u8],
    question: Question,
    pattern: &[u8],
    q: DrawNumber,
    out: &mut [u8],
) -> Result<Drawn, Refusal>
    requires { RowsFor (asked question pattern.now) ROWS × PlacesFor h.now N }
    ensures { draw_says result out.new ≡ draw_to g.now h.now (asked question pattern.now) q.0 out.old }
{
    let mut rules = [[0u8; 256]; 13];
    let mut totals = [[0u64; 32]; ROWS];
    let mut choice = [[0u16; 16]; 17];
    let mut numbers = [0u64; N];
    let k = prepare::prepare_matching(
        g,
        h,
        question,
        pattern,
        &mut rules,
        &mut totals,
        &mut choice,
        &mut numbers,
    )?;
    let counts = maps::EVERYWHERE;
    let tables = Tables {
        rules: &rules,
        totals: &totals,
        choice: &choice,
        measure: &counts,
    };
    let places = &numbers[..];
    let heard = Heard {
        firsts: &places[0..k],
        sums: &places[0..0],
    };
    draw_from(tables, question.length as usize, heard, q, out)
}

// The room for the places as without a pattern.
fn draw_matching_by<const ROWS: usize>(
    g: &[u8],
    h: &[u8],
    question: Question,
    pattern: &[u8],
    q: DrawNumber,
    out: &mut [u8],
) -> Result<Drawn, Refusal>
    requires { RowsFor (asked question pattern.now) ROWS }
    ensures { draw_says result out.new ≡ draw_to g.now h.now (asked question pattern.now) q.0 out.old }
{
    if h.len() < 24 {
        draw_matching_in::<ROWS, 1>(g, h, question, pattern, q, out)
    } else if h.len() <= 2004 {
        draw_matching_in::<ROWS, 100>(g, h, question, pattern, q, out)
    } else {
        draw_matching_in::<ROWS, 1000>(g, h, question, pattern, q, out)
    }
}

// The tables as for *Left*.
pub fn draw_matching(
    g: &[u8],
    h: &[u8],
    pattern: &[u8],
    voice: u64,
    q: DrawNumber,
    out: &mut [u8],
) -> Result<Drawn, Refusal>
    ensures { draw_says result out.new ≡ draw_to g.now h.now (matching pattern.now voice) q.0 out.old }
{
    let question = Question {
        length: pattern.len() as u64,
        voice,
    };
    if pattern.len() <= 5 {
        draw_matching_by::<48>(g, h, question, pattern, q, out)
    } else {
        draw_matching_by::<290>(g, h, question, pattern, q, out)
    }
}
