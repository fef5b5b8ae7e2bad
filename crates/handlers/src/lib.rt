// What carries out an access to memory, to CR8 or to an MSR that nothing refuses.
#![tactic(auto, unfolding(meaning::specs::Cr8Msr::from_cr8_by, meaning::specs::Cr8Msr::mov_from_cr8, meaning::specs::Cr8Msr::mov_to_cr8, meaning::specs::Cr8Msr::read_msr, meaning::specs::Cr8Msr::to_cr8_by, meaning::specs::Cr8Msr::write_msr, meaning::specs::Cr8Msr::write_msr_by, meaning::specs::Memory::clear_three, meaning::specs::Memory::follow_by, meaning::specs::Memory::memory_read, meaning::specs::Memory::memory_write, meaning::specs::Memory::read_by, meaning::specs::Memory::write_by, meaning::specs::Memory::written, meaning::specs::Procedures::eoi_virtualization, meaning::specs::Procedures::retired_page, meaning::specs::Procedures::retired_record))]

pub mod cr8;
pub mod memory;
pub mod msr;
