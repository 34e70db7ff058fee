// *Draw* by weights: the unheard derivation that owns a ticket.
ghost use Rattle.std.specs.Prelude.{◌≡◌};
ghost use Rattle.sampling.specs.Inner.Says.{draw_says};
ghost use Rattle.weighing.specs.Weighted.{draw_weighted};
ghost use Rattle.weighing.specs.Inner.Preparing.{RoomFor, RowsFor};

use crate::prepare;
use answers::refusal::Refusal;
use charts::maps;
use sampling::draw;
use sampling::draw::Drawn;
use sampling::question::Question;
use sampling::skip::{DrawNumber, Heard};
use walk::Tables;

// With `ROWS` rows for the totals, and with room for the first tickets of `N` heard derivations and for their sums.
fn draw_in<const ROWS: usize, const N: usize>(
    g: &[u8],
    h: &[u8],
    question: Question,
    weights: &[u8],
    ticket: DrawNumber,
    out: &mut [u8],
) -> Result<Drawn, Refusal>
    requires { RoomFor question.length h.now ROWS N }
    ensures { draw_says result out.new ≡ draw_weighted g.now h.now question.length question.voice weights.now ticket.0 out.old }
{
    let mut rules = [[0u8; 256]; 16];
    let mut totals = [[0u64; 32]; ROWS];
    let mut numbers = [0u64; N];
    let mut sums = [0u64; N];
    let k = prepare::prepare(
        g,
        h,
        question,
        weights,
        &mut rules,
        &mut totals,
        &mut numbers,
        &mut sums,
    )?;
    // As slices, of which a part can be lent.
    let numbers = &numbers[..];
    let sums = &sums[..];
    let choice = maps::BY_WEIGHT;
    let counts = maps::EVERYWHERE;
    let tables = Tables {
        rules: &rules,
        totals: &totals,
        choice: &choice,
        measure: &counts,
    };
    let heard = Heard {
        firsts: &numbers[0..k],
        sums: &sums[0..k],
    };
    draw::draw_from(tables, question.length as usize, heard, ticket, out)
}

// With `ROWS` rows for the totals: 2,004 bytes of history have 100 records at most.
fn draw_by<const ROWS: usize>(
    g: &[u8],
    h: &[u8],
    question: Question,
    weights: &[u8],
    ticket: DrawNumber,
    out: &mut [u8],
) -> Result<Drawn, Refusal>
    requires { RowsFor question.length ROWS }
    ensures { draw_says result out.new ≡ draw_weighted g.now h.now question.length question.voice weights.now ticket.0 out.old }
{
    if h.len() <= 2004 {
        draw_in::<ROWS, 100>(g, h, question, weights, ticket, out)
    } else {
        draw_in::<ROWS, 1000>(g, h, question, weights, ticket, out)
    }
}

// Behind the totals by weight, which end at row 35, a chart of up to five words takes 15 rows, of sixteen 136. A history of fewer than 24 bytes has no
// record, and no chart is made for it.
pub fn draw_weighted(
    g: &[u8],
    h: &[u8],
    question: Question,
    weights: &[u8],
    ticket: DrawNumber,
    out: &mut [u8],
) -> Result<Drawn, Refusal>
    ensures { draw_says result out.new ≡ draw_weighted g.now h.now question.length question.voice weights.now ticket.0 out.old }
{
    if h.len() < 24 {
        draw_in::<35, 1>(g, h, question, weights, ticket, out)
    } else if question.length <= 5 {
        draw_by::<50>(g, h, question, weights, ticket, out)
    } else {
        draw_by::<171>(g, h, question, weights, ticket, out)
    }
}
