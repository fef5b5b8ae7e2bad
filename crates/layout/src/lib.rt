// The processor record and an event, read from 48 bytes each.
#![tactic(auto, unfolding(crate::specs::EventBytes::boundary_of, crate::specs::EventBytes::event_of, crate::specs::EventBytes::event_readable, crate::specs::EventBytes::memory_read_of, crate::specs::EventBytes::memory_readable, crate::specs::EventBytes::memory_write_of, crate::specs::EventBytes::request_of, crate::specs::EventBytes::to_cr8_of, crate::specs::EventBytes::wrmsr_of, crate::specs::RecordBytes::controls_of, crate::specs::RecordBytes::record_of))]

pub mod controls;
pub mod event_bytes;
pub mod records;
