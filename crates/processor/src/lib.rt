// What every other crate speaks of: the processor record and the controls, where the registers lie on a page, what an access
// comes to, and what a boundary is. Nothing here holds a page.
#![tactic(auto, unfolding(crate::specs::Controls::eoi_exit_word, crate::specs::Logic::larger))]

pub mod access;
pub mod boundary;
pub mod controls;
pub mod offsets;
