// What the five procedures and the boundary decide from numbers alone: priority classes, and what evaluation recognises. Nothing here
// holds a page.
#![tactic(auto, unfolding(crate::specs::Priorities::ppr, processor::specs::Logic::larger))]

pub mod procedures;
