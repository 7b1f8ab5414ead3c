// What tables that pass document 01's checks hold: plain facts that every function on accepted tables goes by.
#![tactic(auto)]
