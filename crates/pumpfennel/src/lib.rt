// The library for C and Rust: document 01's calls, whole. Each result is the refusal's number, 0 where the call is accepted; on a refusal
// every figure is 0 and every lent buffer is as it was. Nothing is required of what is handed in.
#![tactic(auto)]

ghost use Rattle.std.specs.Prelude.{◌≡◌, List, [], ◌∷◌, ℕ};
ghost use Rattle.grammar.specs.Answers.{check_grammar};
ghost use Rattle.counting.specs.Answers.{count_of};
ghost use Rattle.history.specs.Answers.{check_history, append_of};
ghost use Rattle.history.specs.Playback.{playback};
ghost use Rattle.ranking.specs.Answers.{unrank_of, rank_of};
ghost use Rattle.sampling.specs.Answers.{remaining_of, remaining_matching, draw_of, draw_matching};
ghost use Rattle.sampling.specs.Inner.Says.{remaining_says, draw_says};
ghost use Rattle.weighing.specs.Weighted.{draw_weighted};
ghost use Rattle.pumpfennel.specs.Calls.{gives};
ghost use Rattle.pumpfennel.specs.Inner.Says.{figure_says};

use answers::refusal::Refusal;
use counting::count;
use grammar::checks;
use history::append;
use ranking::unrank::DerivationNumber;
use ranking::{rank, unrank};
use sampling::draw::Drawn;
use sampling::question::Question;
use sampling::remaining::Left;
use sampling::skip::DrawNumber;
use sampling::{draw, remaining};

mod version;

// The one figure of *Check diary*, *Count*, *Give* and *Log*, handed over, beside the buffer that the call left.
fn hand_figure(a: Result<u64, Refusal>, figure: &mut u64) -> u8
    ensures { (out : List ℕ) → gives result (figure.new ∷ []) out ≡ figure_says a out }
{
    match a {
        Ok(x) => {
            *figure = x;
            0
        }
        Err(r) => {
            *figure = 0;
            u8::from(r)
        }
    }
}

// The figures of *Left*, handed over, with or without a pattern.
fn hand_remaining(
    a: Result<Left, Refusal>,
    total: &mut u64,
    heard: &mut u64,
    remaining: &mut u64,
) -> u8
    ensures { gives result (total.new ∷ heard.new ∷ remaining.new ∷ []) [] ≡ remaining_says a }
{
    match a {
        Ok(figures) => {
            *total = figures.total;
            *heard = figures.heard;
            *remaining = figures.left;
            0
        }
        Err(r) => {
            *total = 0;
            *heard = 0;
            *remaining = 0;
            u8::from(r)
        }
    }
}

// Those of *Draw*, beside the buffer that it left.
fn hand_drawn(a: Result<Drawn, Refusal>, remaining: &mut u64, number: &mut u64) -> u8
    ensures { (out : List ℕ) → gives result (remaining.new ∷ number.new ∷ []) out ≡ draw_says a out }
{
    match a {
        Ok(drawn) => {
            *remaining = drawn.left;
            *number = drawn.number.0;
            0
        }
        Err(r) => {
            *remaining = 0;
            *number = 0;
            u8::from(r)
        }
    }
}

// *Check bank*.
#[unsafe(no_mangle)]
pub extern "C" fn pumpfennel_check_grammar(
    grammar: &[u8],
    nonterminals: &mut u64,
    words: &mut u64,
) -> u8
    ensures { gives result (nonterminals.new ∷ words.new ∷ []) [] ≡ check_grammar grammar.now }
{
    match checks::check(grammar) {
        Ok(sizes) => {
            *nonterminals = u64::from(sizes.nonterminals);
            *words = u64::from(sizes.words);
            0
        }
        Err(r) => {
            *nonterminals = 0;
            *words = 0;
            u8::from(r)
        }
    }
}

// *Check diary*.
#[unsafe(no_mangle)]
pub extern "C" fn pumpfennel_check_history(history: &[u8], records: &mut u64) -> u8
    ensures { gives result (records.new ∷ []) [] ≡ check_history history.now }
{
    hand_figure(history::checks::check(history), records)
}

// *Count*.
#[unsafe(no_mangle)]
pub extern "C" fn pumpfennel_count(grammar: &[u8], length: u64, total: &mut u64) -> u8
    ensures { gives result (total.new ∷ []) [] ≡ count_of grammar.now length }
{
    hand_figure(count::count(grammar, length), total)
}

// *Give*.
#[unsafe(no_mangle)]
pub extern "C" fn pumpfennel_unrank(
    grammar: &[u8],
    length: u64,
    number: u64,
    sentence: &mut [u8],
    total: &mut u64,
) -> u8
    ensures { gives result (total.new ∷ []) sentence.new ≡ unrank_of grammar.now length number sentence.old }
{
    let a = unrank::unrank(grammar, length, DerivationNumber(number), sentence);
    hand_figure(a, total)
}

// *Number*.
#[unsafe(no_mangle)]
pub extern "C" fn pumpfennel_rank(
    grammar: &[u8],
    sentence: &[u8],
    number: &mut u64,
    total: &mut u64,
    derivations: &mut u64,
) -> u8
    ensures { gives result (number.new ∷ total.new ∷ derivations.new ∷ []) [] ≡ rank_of grammar.now sentence.now }
{
    match rank::rank(grammar, sentence) {
        Ok(ranked) => {
            *number = ranked.lowest.0;
            *total = ranked.total;
            *derivations = ranked.derivations;
            0
        }
        Err(r) => {
            *number = 0;
            *total = 0;
            *derivations = 0;
            u8::from(r)
        }
    }
}

// *Left*.
#[unsafe(no_mangle)]
pub extern "C" fn pumpfennel_remaining(
    grammar: &[u8],
    history: &[u8],
    length: u64,
    voice: u64,
    total: &mut u64,
    heard: &mut u64,
    remaining: &mut u64,
) -> u8
    ensures { gives result (total.new ∷ heard.new ∷ remaining.new ∷ []) [] ≡ remaining_of grammar.now history.now length voice }
{
    let a = remaining::remaining(grammar, history, Question { length, voice });
    hand_remaining(a, total, heard, remaining)
}

// *Left* with a pattern: byte 255 is a blank, any other byte that word.
#[unsafe(no_mangle)]
pub extern "C" fn pumpfennel_remaining_matching(
    grammar: &[u8],
    history: &[u8],
    pattern: &[u8],
    voice: u64,
    total: &mut u64,
    heard: &mut u64,
    remaining: &mut u64,
) -> u8
    ensures { gives result (total.new ∷ heard.new ∷ remaining.new ∷ []) [] ≡ remaining_matching grammar.now history.now pattern.now voice }
{
    let a = remaining::remaining_matching(grammar, history, pattern, voice);
    hand_remaining(a, total, heard, remaining)
}

// *Draw*.
#[unsafe(no_mangle)]
pub extern "C" fn pumpfennel_draw(
    grammar: &[u8],
    history: &[u8],
    length: u64,
    voice: u64,
    draw: u64,
    sentence: &mut [u8],
    remaining: &mut u64,
    number: &mut u64,
) -> u8
    ensures { gives result (remaining.new ∷ number.new ∷ []) sentence.new ≡ draw_of grammar.now history.now length voice draw sentence.old }
{
    let a = draw::draw(
        grammar,
        history,
        Question { length, voice },
        DrawNumber(draw),
        sentence,
    );
    hand_drawn(a, remaining, number)
}

// *Draw* with a pattern.
#[unsafe(no_mangle)]
pub extern "C" fn pumpfennel_draw_matching(
    grammar: &[u8],
    history: &[u8],
    pattern: &[u8],
    voice: u64,
    draw: u64,
    sentence: &mut [u8],
    remaining: &mut u64,
    number: &mut u64,
) -> u8
    ensures { gives result (remaining.new ∷ number.new ∷ []) sentence.new ≡ draw_matching grammar.now history.now pattern.now voice draw sentence.old }
{
    let a = draw::draw_matching(grammar, history, pattern, voice, DrawNumber(draw), sentence);
    hand_drawn(a, remaining, number)
}

// *Draw* by weights, one for each word: a ticket in place of the draw number.
#[unsafe(no_mangle)]
pub extern "C" fn pumpfennel_draw_weighted(
    grammar: &[u8],
    history: &[u8],
    length: u64,
    voice: u64,
    weights: &[u8],
    ticket: u64,
    sentence: &mut [u8],
    tickets: &mut u64,
    number: &mut u64,
) -> u8
    ensures { gives result (tickets.new ∷ number.new ∷ []) sentence.new ≡ draw_weighted grammar.now history.now length voice weights.now ticket sentence.old }
{
    let a = weighing::draw::draw_weighted(
        grammar,
        history,
        Question { length, voice },
        weights,
        DrawNumber(ticket),
        sentence,
    );
    hand_drawn(a, tickets, number)
}

// *Log*.
#[unsafe(no_mangle)]
pub extern "C" fn pumpfennel_append(
    history: &mut [u8],
    sentence: &[u8],
    voice: u64,
    played: u64,
    records: &mut u64,
) -> u8
    ensures { gives result (records.new ∷ []) history.new ≡ append_of history.old (playback sentence.now voice played) }
{
    hand_figure(append::append(history, sentence, voice, played), records)
}
