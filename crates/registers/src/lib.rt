// The 256-bit registers of a lent page: the highest set vector, or none. A slice may have any length.
#![tactic(auto, unfolding(crate::specs::Vectors::highest, crate::specs::Vectors::highest_bit, crate::specs::Vectors::highest_of, crate::specs::Vectors::is_set, crate::specs::Vectors::put_vector))]

pub mod vectors;
