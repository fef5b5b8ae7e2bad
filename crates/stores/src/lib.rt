// Bytes and little-endian words stored in a lent page. Every public function takes a slice of any length: a write past its end
// changes nothing.
#![tactic(auto, unfolding(crate::specs::Stores::set_half, crate::specs::Stores::set_long, crate::specs::Stores::set_word))]

pub mod bytes;
