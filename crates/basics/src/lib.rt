// Plain laws below everything else: facts about truth values, numbers, lists and counts. No game is in sight.
#![tactic(auto)]
