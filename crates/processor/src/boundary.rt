// What is between two guest instructions, at a boundary: IF, blocking by STI and by MOV SS, and the activity state, a number as wide as
// a recorder writes it, so that one out of bounds can be said, and is refused.
#[derive(Clone, Copy)]
pub struct Between {
    pub interrupts: bool,
    pub sti: bool,
    pub mov_ss: bool,
    pub activity: u8,
}
