// What an event came to, in words and numbers: values in hex, answer and exit numbers in decimal.
use events::answer::Answer;
use page::bytes::{byte_at, word_at};
use processor::controls::Record;
use processor::offsets::{VIRR, VISR, VPPR};
use registers::vectors::highest_set;
use std::fmt;

// The word of VIRR that holds vectors 60H to 7FH.
const REQUESTS: u16 = VIRR + 0x30;

// An answer in words, and its three numbers.
#[derive(Clone, Copy)]
pub struct Told(pub Answer);

impl fmt::Display for Told {
    fn fmt<W: fmt::Write>(&self, f: &mut fmt::Formatter<W>) -> fmt::Result {
        match self.0 {
            Answer::Refused { number, check } => {
                write!(
                    f,
                    "refusal {number}                    [0 {number} {check}]     "
                )
            }
            Answer::Redirected(value) => {
                write!(f, "redirected {value:08x}H         [1 {value:08x} 0]  ")
            }
            Answer::Passthrough => f.write_str("passthrough                  [2 0 0]     "),
            Answer::Fault => f.write_str("general-protection fault     [3 0 0]     "),
            Answer::Exit {
                reason,
                qualification,
            } => write!(
                f,
                "exit {reason}, qualification {qualification:03x}H  [4 {reason} {qualification:03x}]  "
            ),
            Answer::Delivered(vector) => {
                write!(
                    f,
                    "delivered {vector:02x}H                [5 {vector:02x} 0]    "
                )
            }
            Answer::Quiet => f.write_str("quiet                        [6 0 0]     "),
        }
    }
}

// What a search finds: "none" for an empty register, 00H for bit 0 alone.
#[derive(Clone, Copy)]
struct Highest(Option<u8>);

impl fmt::Display for Highest {
    fn fmt<W: fmt::Write>(&self, f: &mut fmt::Formatter<W>) -> fmt::Result {
        match self.0 {
            None => f.write_str("none"),
            Some(vector) => write!(f, "{vector:02x}H"),
        }
    }
}

// RVI, SVI and VPPR; the highest request and service.
#[derive(Clone, Copy)]
pub struct Status {
    rvi: u8,
    svi: u8,
    vppr: u8,
    request: Highest,
    service: Highest,
}

impl Status {
    pub fn of(page: &[u8], record: Record) -> Status {
        Status {
            rvi: record.rvi,
            svi: record.svi,
            vppr: byte_at(page, VPPR),
            request: Highest(highest_set(page, VIRR)),
            service: Highest(highest_set(page, VISR)),
        }
    }
}

impl fmt::Display for Status {
    fn fmt<W: fmt::Write>(&self, f: &mut fmt::Formatter<W>) -> fmt::Result {
        let Status {
            rvi,
            svi,
            vppr,
            request,
            service,
        } = *self;
        write!(
            f,
            "RVI {rvi:02x} SVI {svi:02x} VPPR {vppr:02x}, highest request {request}, service {service}"
        )
    }
}

// The request bits of vectors 60H to 7FH.
#[derive(Clone, Copy)]
pub struct Requests(u32);

impl Requests {
    pub fn of(page: &[u8]) -> Requests {
        Requests(word_at(page, REQUESTS))
    }
}

impl fmt::Display for Requests {
    fn fmt<W: fmt::Write>(&self, f: &mut fmt::Formatter<W>) -> fmt::Result {
        let bits = self.0;
        write!(f, "  request bits of 60H to 7FH (word 230H): {bits:08x}")
    }
}
