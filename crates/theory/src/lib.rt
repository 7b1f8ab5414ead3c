// The theory: theorems about the rules alone, with no code in sight. specs/ has a file for each argument.
#![tactic(auto)]
