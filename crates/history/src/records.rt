// The fields of a history and of one of its records.
ghost use Rattle.std.specs.Prelude.{◌≡◌, ◌+◌, ◌≤◌, ◌<◌, length, get_or};
ghost use Rattle.history.specs.Layout.{two_at, record_at, length_of, record_words};
ghost use Rattle.history.specs.Heard.{makes_heard};
ghost use Rattle.history.specs.Refusals.{Accepted};
ghost use Rattle.history.specs.Inner.Checks.{Inside};

// The two-byte field at i.
#[tactic(auto, unfolding(crate::specs::Layout::two_at))]
pub fn two_at(h: &[u8], i: usize) -> usize
    requires { i + 1 < length h.now }
    ensures { (result ≡ two_at h.now i) × (result ≤ 65535) }
{
    usize::from(u16::from_le_bytes([h[i], h[i + 1]]))
}

// Where record r stands.
pub fn record_at(r: usize) -> usize
    requires { (1 ≤ r) × (r ≤ 1000) }
    ensures { result ≡ record_at r }
{
    20 * r - 16
}

// Byte i of record r.
#[tactic(auto, using(crate::proofs::Acceptance::known))]
fn byte(h: &[u8], r: usize, i: usize) -> u8
    requires { Accepted h.now × Inside h.now r × (i < 20) }
    ensures { result ≡ get_or h.now (record_at r + i) 0 }
{
    h[record_at(r) + i]
}

// How many words the sentence of record r has.
fn length(h: &[u8], r: usize) -> usize
    requires { Accepted h.now × Inside h.now r }
    ensures { result ≡ length_of h.now r }
{
    usize::from(byte(h, r, 2))
}

// The sentence of record r.
#[tactic(auto, using(crate::proofs::Acceptance::known, crate::proofs::Acceptance::words_inside))]
pub fn words(h: &[u8], r: usize) -> &[u8]
    requires { Accepted h.now × Inside h.now r }
    ensures { result.now ≡ record_words h.now r }
{
    let at = record_at(r) + 4;
    let end = at + length(h, r);
    &h[at..end]
}

// Whether record r makes its sentence heard in a voice: it has that voice, and was played in full.
#[tactic(auto, unfolding(crate::specs::Heard::makes_heard))]
pub fn makes_heard(h: &[u8], r: usize, voice: u64) -> bool
    requires { Accepted h.now × Inside h.now r }
    ensures { result ≡ makes_heard h.now voice r }
{
    let fourth = byte(h, r, 3);
    u64::from(fourth / 16) == voice && fourth % 16 == 0
}
