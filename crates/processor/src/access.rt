// A guest's access: what one to memory is, and what one to memory or to CR8 comes to.

// Where on the page, how many bytes, whether it fetches, and whether it is virtualised already. The numbers are as wide as a recorder writes
// them, so that one out of bounds can be said, and is refused.
#[derive(Clone, Copy)]
pub struct MemoryAccess {
    pub offset: u16,
    pub size: u8,
    pub fetch: bool,
    pub already: bool,
}

#[derive(Clone, Copy)]
pub enum Access {
    Passthrough,
    Exit,
    Redirected,
}
