// The rules: what document 01 says, as definitions a reader can hold against its sentences. There is no code here and
// no proof; specs/ has a short file for each idea.
#![tactic(auto)]
