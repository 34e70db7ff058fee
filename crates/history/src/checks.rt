// *Check diary*: the refusals 11 to 14, in the order of document 01's list; 12 and 13 are one pass over the records.
ghost use Rattle.std.specs.Prelude.{◌≡◌, false, ◌+◌, ◌-◌, ◌≤◌, length};
ghost use Rattle.history.specs.Refusals.{bad_size, some_nonzero, misfit, bad_link, bad_chain};
ghost use Rattle.history.specs.Inner.Checks.{Sized, TestedAs};
ghost use Rattle.history.specs.Answers.{check_history};
ghost use Rattle.history.specs.Inner.Says.{history_says};

use crate::records;
use answers::refusal::Refusal;

// 11.
#[tactic(auto, unfolding(crate::specs::Refusals::bad_size))]
fn bad_size(h: &[u8]) -> bool
    ensures { result ≡ bad_size h.now }
{
    if h.len() < 4 {
        return true;
    }
    let k = records::two_at(h, 0);
    1000 < k || h.len() < 4 + 20 * k
}

// Whether, of the sixteen bytes at `at`, one from the place n on is not 0. All are looked at: a loop that no byte ends can be unrolled.
fn some_nonzero(h: &[u8], at: usize, n: usize) -> bool
    requires { at + 16 ≤ length h.now }
    ensures { result ≡ some_nonzero h.now (at + n) (16 - n) }
{
    let mut bits: u8 = 0;
    for i in 0..16 {
        if n <= i {
            bits |= h[at + i];
        }
    }
    bits != 0
}

// Whether a record, which stands at `at`, breaks its layout.
#[tactic(auto, using(lists::proofs::Tests::below_none), unfolding(crate::specs::Refusals::misfit, answers::specs::Length::bad_length))]
fn misfit(h: &[u8], at: usize) -> bool
    requires { at + 20 ≤ length h.now }
    ensures { result ≡ misfit h.now at }
{
    let n = usize::from(h[at + 2]);
    if n < 1 || 16 < n {
        return true;
    }
    // the low four bits are the words played, fewer than all; the high four bits hold the voice, and may be any
    if n <= usize::from(h[at + 3]) % 16 {
        return true;
    }
    // nothing lies beyond sixteen words
    if n == 16 {
        return false;
    }
    some_nonzero(h, at + 4, n)
}

// 12 and 13: nothing where some record is bad, else whether some link is far. A bad record ends the pass; a far link doesn't, since a bad record may
// follow.
// Stays: as a Result it put a refusal down for each record, and took up to 1.3 of the time.
fn test_records(h: &[u8], k: usize) -> Option<bool>
    requires { Sized h.now k }
    ensures { TestedAs h.now result }
{
    let mut far = k < records::two_at(h, 2);
    for r in 1..k + 1 {
        let at = records::record_at(r);
        if misfit(h, at) {
            return None;
        }
        far |= k < records::two_at(h, at);
    }
    Some(far)
}

// 14: a chain of links up to k that ends meets no record twice. So it meets each once exactly if it meets k of them and ends.
fn bad_chain(h: &[u8], k: usize) -> bool
    requires { Sized h.now k × (bad_link h.now ≡ false) }
    ensures { result ≡ bad_chain h.now }
{
    let mut at = records::two_at(h, 2);
    for _ in 0..k {
        if at == 0 {
            return true;
        }
        at = records::two_at(h, records::record_at(at));
    }
    at != 0
}

pub fn check(h: &[u8]) -> Result<u64, Refusal>
    ensures { history_says result ≡ check_history h.now }
{
    if bad_size(h) {
        return Err(Refusal::HistoryWrongSize);
    }
    let k = records::two_at(h, 0);
    let Some(far) = test_records(h, k) else {
        return Err(Refusal::HistoryBadRecord);
    };
    if far {
        return Err(Refusal::HistoryBadLink);
    }
    if bad_chain(h, k) {
        return Err(Refusal::HistoryBadChain);
    }
    Ok(k as u64)
}
