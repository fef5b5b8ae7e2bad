// What MOV to CR8, MOV from CR8, RDMSR and WRMSR come to, decided from numbers alone. Nothing here holds a page.
#![tactic(auto, unfolding(crate::specs::Instructions::cr8_access, crate::specs::Instructions::wrmsr, crate::specs::Instructions::wrmsr_following))]

pub mod cr8;
pub mod msr;
