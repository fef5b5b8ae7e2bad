// Where the registers lie on the page.
pub const VTPR: u16 = 0x080;

pub const VPPR: u16 = 0x0a0;

pub const VEOI: u16 = 0x0b0;

pub const VISR: u16 = 0x100;

pub const VIRR: u16 = 0x200;

pub const VICR_LO: u16 = 0x300;

pub const VICR_HI: u16 = 0x310;
