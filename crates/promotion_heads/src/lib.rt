// Theorems about R in a round of priority promotion, with no code in sight: R is open where one of its heads opens it,
// only heads lack an entry, and after a promotion only the newcomers have to be attracted.
#![tactic(auto)]
