// A trace of recorded events: its records as parts of it, which of them can be read, and what they say. Every public function takes a
// slice of any length and any place.
#![tactic(auto, unfolding(crate::specs::Fields::eight_at, crate::specs::Fields::four_at, crate::specs::Fields::two_at, crate::specs::Format::body_at, crate::specs::Format::body_readable, crate::specs::Format::cut_short, crate::specs::Format::flags_used, crate::specs::Format::length_of_kind, crate::specs::Format::next_place, crate::specs::Format::record_readable, crate::specs::Records::boundary_of, crate::specs::Records::controls_of, crate::specs::Records::event_of, crate::specs::Records::memory_read_of, crate::specs::Records::memory_write_of, crate::specs::Records::to_cr8_of, crate::specs::Records::wrmsr_of))]

pub mod bodies;
pub mod fields;
pub mod kinds;
pub mod records;
