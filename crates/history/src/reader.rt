// The reader of a history: a struct that holds the history's bytes and the number of the record where it stands. `first`, `sentence` and `after`
// make one in a local, so that a caller reads through it with a slice and a number in hand.
ghost use Rattle.std.specs.Prelude.{◌≡◌};
ghost use Rattle.history.specs.Layout.{head_of};
ghost use Rattle.history.specs.Refusals.{Accepted};
ghost use Rattle.history.specs.Inner.Reading.{is_record, sentence_at, next_at};

use crate::records;

// A place on the chain. The number 0 is the end.
#[derive(Clone, Copy)]
pub struct Reader<'a> {
    pub history: &'a [u8],
    pub at: usize,
}

impl<'a> Reader<'a> {
    // A reader at the first record.
    pub fn open(h: &'a [u8]) -> Reader<'a>
        requires { Accepted h.now }
        ensures { (result.history ≡ h.entry) × (result.at ≡ head_of h.now) }
    {
        Reader {
            history: h,
            at: records::two_at(h, 2),
        }
    }

    // Whether it stands at a record.
    fn is_record(self) -> bool
        requires { Accepted self.history.now }
        ensures { result ≡ is_record self.entry.history.now self.entry.at }
    {
        1 <= self.at && self.at <= records::two_at(self.history, 0)
    }

    // The sentence where it stands; at the end an empty one.
    pub fn standing(self) -> &'a [u8]
        requires { Accepted self.history.now }
        ensures { result.now ≡ sentence_at self.entry.history.now self.entry.at }
    {
        if self.is_record() {
            records::words(self.history, self.at)
        } else {
            &self.history[0..0]
        }
    }

    // The reader moved on by one record.
    #[tactic(auto, using(crate::proofs::Acceptance::known))]
    pub fn moved(self) -> Reader<'a>
        requires { Accepted self.history.now }
        ensures { (result.history ≡ self.entry.history) × (result.at ≡ next_at self.entry.history.now self.entry.at) }
    {
        let next = if self.is_record() {
            records::two_at(self.history, records::record_at(self.at))
        } else {
            0
        };
        Reader {
            history: self.history,
            at: next,
        }
    }
}

// Stays: `collect` in sampling/src/heard.rt reads by a slice and a number through these three, whose contracts may not change.
// Where the reading begins.
pub fn first(h: &[u8]) -> usize
    requires { Accepted h.now }
    ensures { result ≡ head_of h.now }
{
    Reader::open(h).at
}

// What a reader at `at` reads.
pub fn sentence(h: &[u8], at: usize) -> &[u8]
    requires { Accepted h.now }
    ensures { result.now ≡ sentence_at h.now at }
{
    Reader { history: h, at }.standing()
}

// Where a reader at `at` stands next.
pub fn after(h: &[u8], at: usize) -> usize
    requires { Accepted h.now }
    ensures { result ≡ next_at h.now at }
{
    Reader { history: h, at }.moved().at
}
