// Charts (document 01: "count its derivations over every run of its words (002's table, with counts in place of sets)"): which row of the
// table of totals each span of a sentence or a pattern has, and the filling of these rows.
#![tactic(auto)]

pub mod chart;
pub mod maps;
pub mod plan;
pub mod ready;
