// The events of document 01 with their bounds and modes, and the answers. Nothing here holds a page.
#![tactic(auto, unfolding(crate::specs::Events::allowed, crate::specs::Events::event_in_bounds, crate::specs::Events::root_only, crate::specs::Events::value_in_bounds))]

pub mod answer;
pub mod bounds;
pub mod event;
pub mod kind;
