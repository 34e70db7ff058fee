// The heard derivations: of the history's sentences, in a voice and of a length, those that have one derivation, by their places among the derivations
// whose words stand by a measure.
ghost use Rattle.std.specs.Prelude.{◌≡◌, ◌+◌, ◌≤◌, set};
ghost use Rattle.counting.specs.Refusals.{most};
ghost use Rattle.sampling.specs.Inner.Collect.{Serves, HeardFoundAs, Collects, CollectedAs};

use crate::question::Question;
use answers::refusal::Refusal;
use charts::{maps, plan};
use history::{reader, records};
use ranking::rank;
use ranking::rank::Span;
use walk::Tables;

// Where a place ends, if there is room for it.
fn note(ends: &mut [u64], i: usize, first: u64, weight: u64)
    requires { first + weight ≤ most }
    ensures { ends.new ≡ set ends.old i (first + weight) }
{
    // Stays: tried with `ends.get_mut(i)`, and the proof did not close: no clause of a slice's get_mut says what a write through it leaves.
    if i < ends.len() {
        ends[i] = first + weight;
    }
}

// What every heard sentence is read by: the rules, the plan of the length, and the map of what measures.
#[derive(Clone, Copy)]
pub struct Sources<'a> {
    pub rules: &'a [[u8; 256]],
    pub plan: &'a [[u32; 32]; 4],
    pub measure: &'a [[u16; 16]; 17],
}

impl<'a> Sources<'a> {
    // What a heard sentence adds: the tickets of its one derivation, or nothing. A sentence of another length than the plan's adds nothing; one with two
    // derivations is refused, whether it stands or not.
    fn find_heard(
        &self,
        map: &mut [[u16; 16]; 17],
        s: &[u8],
        sets: &mut [u32],
        totals: &mut [[u64; 32]],
    ) -> Result<Option<Span>, Refusal>
        requires { Serves self.now.rules.now self.now.plan.now map.old self.now.measure.now sets.old totals.old }
        ensures { HeardFoundAs self.now.rules.now self.now.plan.now map.new self.now.measure.now s.now sets.new totals.new result }
    {
        if s.len() != plan::length(self.plan) {
            return Ok(None);
        }
        let k = rank::derivations(self.rules, self.plan, map, s, sets, totals);
        if 2 <= k {
            return Err(Refusal::HeardAmbiguous);
        }
        if k == 0 {
            return Ok(None);
        }
        if maps::fits(self.measure, s) {
            let tables = Tables {
                rules: self.rules,
                totals,
                choice: map,
                measure: self.measure,
            };
            let d = rank::place(&tables, s.len());
            return Ok(Some(d));
        }
        Ok(None)
    }

    // The places along the chain, one record after another, and where they end, as far as room is lent for that; a record's sentence is read only where
    // the record makes it heard.
    pub fn collect(
        &self,
        map: &mut [[u16; 16]; 17],
        h: &[u8],
        question: Question,
        totals: &mut [[u64; 32]],
        numbers: &mut [u64],
        ends: &mut [u64],
    ) -> Result<usize, Refusal>
        requires { Collects self.now.rules.now self.now.plan.now map.old self.now.measure.now h.now question.length totals.old numbers.old }
        ensures { CollectedAs self.now.rules.now self.now.plan.now self.now.measure.now h.now question.length question.voice totals.new numbers.new ends.new result }
    {
        let mut sets = [0u32; 290];
        let mut at = reader::first(h);
        let mut count = 0;
        while at != 0 {
            let r = at;
            at = reader::after(h, r);
            if records::makes_heard(h, r, question.voice) {
                let s = reader::sentence(h, r);
                let found = self.find_heard(map, s, &mut sets, totals)?;
                if let Some(d) = found {
                    numbers[count] = d.first;
                    note(ends, count, d.first, d.weight);
                    count += 1;
                }
            }
        }
        Ok(count)
    }
}
