// *Count*.
ghost use Rattle.std.specs.Prelude.{◌≡◌};
ghost use Rattle.counting.specs.Answers.{count_of};
ghost use Rattle.counting.specs.Inner.Says.{count_says};

use crate::{prepare, tallies};
use answers::refusal::Refusal;
use grammar::rules;

pub fn count(g: &[u8], n: u64) -> Result<u64, Refusal>
    ensures { count_says result ≡ count_of g.now n }
{
    let mut rules = [[0u8; 256]; 4];
    let mut totals = [[0u64; 32]; 17];
    prepare::prepare(g, n, &mut rules, &mut totals)?;
    Ok(tallies::count_at(&totals, rules::start(&rules), n as usize))
}
