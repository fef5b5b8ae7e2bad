// What the calls without an event answer, and how each call hands its numbers over.
#![tactic(auto, unfolding(crate::specs::Calls::gg_fresh, crate::specs::Calls::gg_highest))]

pub mod fresh;
pub mod hand;
pub mod highest;
