// The functions of include/reckonbough.h: each calls the door of its name and states its clauses again.
#![tactic(auto)]

mod attraction;
mod certificate;
mod editing;
mod looping;
mod mending;
mod opinion;
mod portions;
mod promotion;
mod reading;
mod recursion;
mod solitaire;
mod tables;
mod texts;
mod writing_out;
