// Theorems about sets that part the small dominions of the two players, with no code in sight: what a pass of the
// quasi-polynomial recursion does, how its stages end, and that at full precision the set is the winning set.
#![tactic(auto)]
