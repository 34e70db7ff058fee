// Why a call says no: the documents' refusals, each with its number there. Written by tools/generate from refusals.txt.
ghost use Rattle.std.specs.Prelude.{◌≡◌};
ghost use Rattle.answers.specs.Inner.Refusals.{refusal_number};

#[derive(Clone, Copy)]
pub enum Refusal {
    GrammarTooShort = 1,
    GrammarOutOfRange = 2,
    GrammarWrongSize = 3,
    GrammarBadRule = 4,
    GrammarBadLink = 5,
    GrammarRuleMetTwice = 6,
    GrammarRuleOnNoChain = 7,
    GrammarEqualRules = 8,
    BadLength = 9,
    TooManyDerivations = 10,
    HistoryWrongSize = 11,
    HistoryBadRecord = 12,
    HistoryBadLink = 13,
    HistoryBadChain = 14,
    HeardAmbiguous = 15,
    NumberBeyond = 16,
    SentenceUnderivable = 17,
    HistoryFull = 19,
    BufferTooShort = 20,
    BadPattern = 21,
    BadVoice = 22,
    BadPlayed = 23,
    BadWeights = 24,
    TooManyTickets = 25,
}

// The refusal's number in the documents.
impl From<Refusal> for u8 {
    fn from(r: Refusal) -> u8
        ensures { result ≡ refusal_number r }
    {
        r as u8
    }
}
