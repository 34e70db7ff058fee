// What the calls with a grammar and a length share: the refusals 1 to 8 and 9 with the table of rules, and 10 with the table of totals.
ghost use Rattle.grammar.specs.Inner.Rules.{Roomy};
ghost use Rattle.counting.specs.Inner.Preparing.{OpenedAs, Lent, PreparedAs};

use crate::letters::ANY;
use crate::tallies;
use answers::refusal::Refusal;
use grammar::checks;

// 1 to 9.
pub fn open(g: &[u8], n: u64, rules: &mut [[u8; 256]]) -> Result<(), Refusal>
    requires { Roomy rules.old }
    ensures { OpenedAs g.now n rules.old rules.new result }
{
    checks::read(g, rules)?;
    if n < 1 {
        return Err(Refusal::BadLength);
    }
    if 16 < n {
        return Err(Refusal::BadLength);
    }
    Ok(())
}

// 1 to 10.
pub fn prepare(
    g: &[u8],
    n: u64,
    rules: &mut [[u8; 256]],
    totals: &mut [[u64; 32]],
) -> Result<(), Refusal>
    requires { Lent rules.old totals.old }
    ensures { PreparedAs g.now n rules.old rules.new totals.old totals.new result }
{
    open(g, n, rules)?;
    if !tallies::fill(rules, ANY, n as usize, 0, totals) {
        return Err(Refusal::TooManyDerivations);
    }
    Ok(())
}
