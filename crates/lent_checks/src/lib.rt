// The checks 9 and 10 of what the solvers and the checker are lent: two sets, a strategy and the work area.
#![tactic(auto)]

pub mod checks;
