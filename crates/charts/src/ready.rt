// Everything that the sentences and patterns of a length share: the links of the rules, the plan, and the map of the chart.
ghost use Rattle.charts.specs.Inner.Ready.{Readies, ReadiedAs};

use crate::plan;
use grammar::links;

pub fn ready(
    rules: &mut [[u8; 256]],
    totals: &[[u64; 32]],
    n: usize,
    plan: &mut [[u32; 32]; 4],
    map: &mut [[u16; 16]; 17],
)
    requires { Readies rules.old totals.now n plan.old map.old }
    ensures { ReadiedAs rules.old rules.new plan.new map.new totals.now n }
{
    links::link(rules);
    plan::build(rules, totals, n, plan, map);
}
