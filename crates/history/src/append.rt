// *Log*: one record more at the chain's head.
ghost use Rattle.std.specs.Prelude.{◌≡◌, ◌+◌, ◌≤◌, length};
ghost use Rattle.history.specs.Playback.{playback};
ghost use Rattle.history.specs.Writing.{overwritten, two_bytes, record_bytes, appended};
ghost use Rattle.history.specs.Inner.Checks.{Room};
ghost use Rattle.history.specs.Answers.{append_of};
ghost use Rattle.history.specs.Inner.Says.{append_says};

use crate::{checks, records};
use answers::refusal::Refusal;

fn put_two(h: &mut [u8], at: usize, x: usize)
    requires { (at + 2 ≤ length h.old) × (x ≤ 65535) }
    ensures { h.new ≡ overwritten h.old at (two_bytes x) }
{
    h[at..at + 2].copy_from_slice(&(x as u16).to_le_bytes());
}

// The bytes of a record. Past the sentence they are 0.
fn record(next: usize, fourth: u8, s: &[u8]) -> [u8; 20]
    requires { (next ≤ 65535) × (length s.now ≤ 16) }
    ensures { result ≡ record_bytes next fourth s.now }
{
    let mut bytes = [0; 20];
    put_two(&mut bytes, 0, next);
    bytes[2] = s.len() as u8;
    bytes[3] = fourth;
    bytes[4..4 + s.len()].copy_from_slice(s);
    bytes
}

fn put_record(h: &mut [u8], at: usize, next: usize, fourth: u8, s: &[u8])
    requires { (at + 20 ≤ length h.old) × (next ≤ 65535) × (length s.now ≤ 16) }
    ensures { h.new ≡ overwritten h.old at (record_bytes next fourth s.now) }
{
    h[at..at + 20].copy_from_slice(&record(next, fourth, s));
}

// Record `new`, with the old head as its next, and K and head set to `new`. The fourth byte's high four bits hold the voice, the low ones
// the words played.
fn write(h: &mut [u8], new: usize, sentence: &[u8], voice: u8, played: u8)
    requires { Room h.old new × (length sentence.now ≤ 16) × (voice ≤ 15) × (played ≤ 15) }
    ensures { h.new ≡ appended h.old (playback sentence.now voice played) }
{
    let old = records::two_at(h, 2);
    let fourth = 16 * voice + played;
    put_record(h, records::record_at(new), old, fourth, sentence);
    put_two(h, 0, new);
    put_two(h, 2, new);
}

pub fn append(h: &mut [u8], sentence: &[u8], voice: u64, played: u64) -> Result<u64, Refusal>
    ensures { append_says result h.new ≡ append_of h.old (playback sentence.now voice played) }
{
    if sentence.len() < 1 || 16 < sentence.len() {
        return Err(Refusal::BadLength);
    }
    if 15 < voice {
        return Err(Refusal::BadVoice);
    }
    if sentence.len() as u64 <= played {
        return Err(Refusal::BadPlayed);
    }
    let k = checks::check(h)?;
    if k == 1000 {
        return Err(Refusal::HistoryFull);
    }
    let new = k as usize + 1;
    if h.len() < 4 + 20 * new {
        return Err(Refusal::HistoryFull);
    }
    write(h, new, sentence, voice as u8, played as u8);
    Ok(k + 1)
}
