// The processor record kept in its 48 bytes.
#![tactic(auto, unfolding(crate::specs::KeptBytes::controls_bytes, crate::specs::KeptBytes::kept, crate::specs::KeptBytes::kept_status, crate::specs::KeptBytes::record_bytes, crate::specs::KeptBytes::truth_byte))]

mod controls;
mod records;

pub use records::{keep, keep_status};
