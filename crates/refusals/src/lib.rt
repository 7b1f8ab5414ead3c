// Theorems about the refusals of the rules, with no code in sight: of those that apply the first in document 01's
// order is given, 13 gives the budget as count, and a reading keeps a fresh count after an answer alone.
#![tactic(auto)]
