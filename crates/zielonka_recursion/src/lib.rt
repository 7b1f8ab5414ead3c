// Zielonka's recursion over one lent work area, after zielonka.rs. A call keeps one set at its own level, V; the call
// below stands at the next level. What Odd won stands once, for the whole recursion.
#![tactic(auto)]

mod recursion;

pub use recursion::zielonka_rec;
