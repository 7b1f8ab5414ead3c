// Theorems about the text that is written, with no code in sight: how long it is, that reading it gives the same
// tables, and that different games have different texts.
#![tactic(auto)]
