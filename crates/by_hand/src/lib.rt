// No code. Steps for a proof by hand, of a function that is lent a struct or holds a slice in one, stand here in
// `proofs/Walk.antt`; no proof goes by them today.
#![tactic(auto)]
