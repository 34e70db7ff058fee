// What each refusal means, in words. Written by tools/generate from refusals.txt.
use answers::refusal::Refusal;

// A sentence without its first capital and its full stop.
pub fn meaning(r: Refusal) -> &'static str {
    match r {
        Refusal::GrammarTooShort => "the grammar has fewer than 4 bytes",
        Refusal::GrammarOutOfRange => "N, W, R or S is outside its range",
        Refusal::GrammarWrongSize => "the grammar's size is not 4 + N + 4R",
        Refusal::GrammarBadRule => "some rule has a kind, a or b that its layout forbids",
        Refusal::GrammarBadLink => "some head or next in the grammar is above R",
        Refusal::GrammarRuleMetTwice => {
            "a rule is met a second time, walking the chains from nonterminal 0 up"
        }
        Refusal::GrammarRuleOnNoChain => "a rule is on no chain",
        Refusal::GrammarEqualRules => "one chain holds two rules with the same kind, a and b",
        Refusal::BadLength => "the length, or the sentence's length, is not 1 to 16",
        Refusal::TooManyDerivations => "a count that the length needs is above 2^64 - 1",
        Refusal::HistoryWrongSize => {
            "the history has fewer than 4 bytes, K is above 1,000, or it has fewer than 4 + 20K bytes"
        }
        Refusal::HistoryBadRecord => {
            "some record has a wrong length, a count of words played that is its length or more, or a non-zero byte beyond its words"
        }
        Refusal::HistoryBadLink => "the history's head or some next is above K",
        Refusal::HistoryBadChain => "the history's chain meets a record twice or misses one",
        Refusal::HeardAmbiguous => {
            "a sentence of the length, heard in the voice, has two or more derivations"
        }
        Refusal::NumberBeyond => "the number is not below how many there are to choose from",
        Refusal::SentenceUnderivable => "the sentence has no derivation",
        Refusal::HistoryFull => "the history has 1,000 records or no room for one more",
        Refusal::BufferTooShort => "the sentence's buffer is shorter than the length",
        Refusal::BadPattern => "a byte of the pattern is neither 255 nor a word of the grammar",
        Refusal::BadVoice => "the voice is above 15",
        Refusal::BadPlayed => "the count of words played is the sentence's length or more",
        Refusal::BadWeights => "the weights are not W bytes, or one of them is 0",
        Refusal::TooManyTickets => "a total weight that the length needs is above 2^64 - 1",
    }
}
