// One position: which of a nonterminal's words owns a ticket.
ghost use Rattle.std.specs.Prelude.{◌≡◌, ◌<◌, length};
ghost use Rattle.charts.specs.Inner.Letters.{letter_at};
ghost use Rattle.walk.specs.Inner.Steps.{HasWord, WordPlacedAs, WordSought, PickedAs, LeafAs};

use crate::nodes::Node;
use crate::{Found, Tables};
use charts::maps::LETTERS;
use counting::letters;
use counting::letters::{ANY, WEIGHED};
use grammar::rules;
use grammar::rules::{NEXT_WORD, WITH_WORD, WORD_OWNER};

// A word, and what is found of it.
#[derive(Clone, Copy)]
pub struct Picked {
    pub word: u8,
    pub found: Found,
}

// A word that weighs 1: it has one ticket.
fn one_ticket(word: u8, place: u64, measured: u64) -> Picked
    ensures { (result.word ≡ word) × (result.found.place ≡ place) × (result.found.measured ≡ measured) × (result.found.weight ≡ 1) × (result.found.offset ≡ 0) }
{
    Picked {
        word,
        found: Found {
            place,
            measured,
            weight: 1,
            offset: 0,
        },
    }
}

// The place of the word x among the words of a, which has it: along the links of x.
fn place_of(rules: &[[u8; 256]], x: usize, a: usize) -> usize
    requires { HasWord rules.now x a }
    ensures { WordPlacedAs rules.now x a result }
{
    let mut l = rules::link_at(rules, WITH_WORD, x);
    while rules::link_at(rules, WORD_OWNER, l) != a {
        l = rules::link_at(rules, NEXT_WORD, l);
    }
    l - 1
}

// The words of a one after another, up to the one that owns the ticket.
// Stays: a `for` over the words would want an answer past the last one, where no ticket leads.
fn scan(rules: &[[u8; 256]], by: u16, to: u16, a: usize, ticket: u64) -> Picked
    requires { WordSought rules.now by to a ticket }
    ensures { PickedAs rules.now by to a ticket result.word result.found.place result.found.measured result.found.weight result.found.offset }
{
    let mut i = rules::words_from(rules, a);
    let mut rest = ticket;
    let mut place: u64 = 0;
    loop {
        let word = rules::word_at(rules, i);
        let weight = letters::weight(rules, by, word);
        let measured = letters::weight(rules, to, word);
        if rest < weight {
            return Picked {
                word,
                found: Found {
                    place,
                    measured,
                    weight,
                    offset: rest,
                },
            };
        }
        rest -= weight;
        place += measured;
        i += 1;
    }
}

// The word that owns the ticket. Where the measure counts each word once there is no scan, nor where one word is asked for and the weights measure.
fn pick(rules: &[[u8; 256]], by: u16, to: u16, a: usize, ticket: u64) -> Picked
    requires { WordSought rules.now by to a ticket }
    ensures { PickedAs rules.now by to a ticket result.word result.found.place result.found.measured result.found.weight result.found.offset }
{
    match (by, to) {
        (ANY, ANY) => {
            let i = rules::words_from(rules, a) + ticket as usize;
            one_ticket(rules::word_at(rules, i), ticket, 1)
        }
        (0..=255, ANY) => {
            let i = place_of(rules, by as usize, a);
            let from = rules::words_from(rules, a);
            one_ticket(by as u8, (i - from) as u64, 1)
        }
        (0..=255, WEIGHED) => {
            let i = place_of(rules, by as usize, a);
            let word = by as u8;
            one_ticket(
                word,
                letters::before(rules, i),
                letters::weight(rules, to, word),
            )
        }
        _ => scan(rules, by, to, a, ticket),
    }
}

impl<'a> Tables<'a> {
    // The same with the letters at the position of a node of one word, the word written.
    pub fn leaf(&self, node: Node, ticket: u64, out: &mut [u8]) -> Found
        requires { WordSought self.now.rules.now (letter_at self.now.choice.now node.p) (letter_at self.now.measure.now node.p) node.a ticket × (node.p < 16) × (length out.old ≡ 1) }
        ensures { LeafAs self.now.rules.now (letter_at self.now.choice.now node.p) (letter_at self.now.measure.now node.p) node.a ticket out.new result.place result.measured result.weight result.offset }
    {
        let w = pick(
            self.rules,
            self.choice[LETTERS][node.p],
            self.measure[LETTERS][node.p],
            node.a,
            ticket,
        );
        out[0] = w.word;
        w.found
    }
}
