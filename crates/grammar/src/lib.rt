// Theorems about PGSolver's grammar, with no code in sight: a machine that reads a text byte by byte, and that what it
// gives is exactly what the rules say of the text.
#![tactic(auto)]
