// Shows the model at work: one session of bench cases K1 to K3, then one wake-up call with ICR bit 13 off and with it on, then a guest
// that leaves, then a request of vector 00H.
#![tactic(auto)]

use crate::words::{Requests, Status, Told};
use events::answer::Outcome;
use events::event::Event;
use model::{fresh_record, leave, step};
use processor::access::MemoryAccess;
use processor::boundary::Between;
use processor::controls::{Controls, Record};
use processor::offsets::{VEOI, VICR_LO};
use std::io;

mod words;

// "V": controls 0, 4 and 5 on.
const CONTROLS_V: u32 = 0x31;

// "M": control 1 as well.
const CONTROLS_M: u32 = 0x33;

fn entry(flags: u32) -> Event {
    Event::Entry(Controls {
        flags,
        ..Controls::default()
    })
}

fn write_of_four(offset: u16, value: u64) -> Event {
    Event::MemoryWrite {
        access: MemoryAccess {
            offset,
            size: 4,
            fetch: false,
            already: false,
        },
        value,
    }
}

// A virtual processor under way: its page and its record.
#[derive(Clone, Copy)]
struct Session {
    page: [u8; 4096],
    record: Record,
}

impl Session {
    fn fresh() -> Session {
        Session {
            page: [0u8; 4096],
            record: fresh_record(),
        }
    }

    fn status(&self) -> Status {
        Status::of(&self.page, self.record)
    }

    // One input: its words, its answer, and RVI, SVI and VPPR after it.
    fn show_outcome(&mut self, rt: &impl Print, words: &str, outcome: Outcome) -> io::Result<()> {
        self.record = outcome.record;
        println!(rt; "  {words:<43}{}{}", Told(outcome.answer), self.status())
    }

    fn show(&mut self, rt: &impl Print, words: &str, event: Event) -> io::Result<()> {
        let outcome = step(&mut self.page, self.record, event);
        self.show_outcome(rt, words, outcome)
    }

    // The guest leaves for a reason outside the model.
    fn show_left(&mut self, rt: &impl Print) -> io::Result<()> {
        self.show_outcome(rt, "the guest leaves:", leave(self.record))
    }

    fn show_entry(&mut self, rt: &impl Print) -> io::Result<()> {
        self.show(rt, "entry under M:", entry(CONTROLS_M))
    }

    fn show_boundary(&mut self, rt: &impl Print) -> io::Result<()> {
        let open = Event::Boundary(Between {
            interrupts: true,
            sti: false,
            mov_ss: false,
            activity: 0,
        });
        self.show(rt, "open boundary:", open)
    }

    // The wake-up call as the driver means it.
    fn show_self_ipi(&mut self, rt: &impl Print) -> io::Result<()> {
        let call = write_of_four(VICR_LO, 0x0004_0071);
        self.show(rt, "write VICR_LO 00040071 (self-IPI of 71H):", call)
    }

    fn show_requests(&self, rt: &impl Print) -> io::Result<()> {
        println!(rt; "{}", Requests::of(&self.page))
    }
}

// K1 under M: request 60H, entry, open boundary.
fn show_k1(rt: &impl Print) -> io::Result<Session> {
    let mut session = Session::fresh();
    session.show(rt, "request 60H:", Event::Request(0x60))?;
    session.show_entry(rt)?;
    session.show_boundary(rt)?;
    Ok(session)
}

// K2 and K3: the self-IPI of 71H, its delivery, and its end.
fn show_k2_and_k3(rt: &impl Print, mut session: Session) -> io::Result<()> {
    session.show_self_ipi(rt)?;
    session.show_boundary(rt)?;
    let end = write_of_four(VEOI, 0);
    session.show(rt, "write VEOI 00000000 (end of 71H):", end)
}

fn show_call_sent(rt: &impl Print, mut session: Session) -> io::Result<()> {
    println!(rt; "\nThe wake-up call after K1 with ICR bit 13 clear: the model sends it.")?;
    session.show_requests(rt)?;
    session.show_self_ipi(rt)?;
    session.show_requests(rt)?;
    session.show_boundary(rt)
}

fn show_call_left(rt: &impl Print, mut session: Session) -> io::Result<()> {
    println!(rt;
        "\nThe same call with ICR bit 13 set: the model leaves it to the hypervisor, here one that drops it."
    )?;
    session.show_requests(rt)?;
    let call = write_of_four(VICR_LO, 0x0004_2071);
    session.show(rt, "write VICR_LO 00042071 (bit 13 is set):", call)?;
    session.show_requests(rt)?;
    session.show_entry(rt)?;
    session.show_boundary(rt)
}

fn show_leave(rt: &impl Print, mut session: Session) -> io::Result<()> {
    println!(rt;
        "\nThe guest leaves by CPUID with 71H requested: the request waits for the next entry."
    )?;
    session.show_self_ipi(rt)?;
    session.show_left(rt)?;
    session.show_entry(rt)?;
    session.show_boundary(rt)
}

// K12: RVI is 00 with nothing requested and with vector 00H requested; the search tells the two apart.
fn show_k12(rt: &impl Print) -> io::Result<()> {
    println!(rt;
        "\nK12, under V (controls 0, 4 and 5): vector 00H is requested, and RVI is 00 as before."
    )?;
    let mut session = Session::fresh();
    println!(rt; "  {:<84}{}", "before any event:", session.status())?;
    session.show(rt, "request 00H:", Event::Request(0))?;
    session.show(rt, "entry under V:", entry(CONTROLS_V))
}

fn main(rt: HostRuntime) -> io::Result<()> {
    println!(&rt;
        "Values in hex; answer and exit numbers in decimal. RVI, SVI, VPPR and what is highest are those after the event."
    )?;
    println!(&rt; "\nOne session, K1 to K3, under M (controls 0, 1, 4 and 5).")?;
    let serving = show_k1(&rt)?;
    show_k2_and_k3(&rt, serving)?;
    show_call_sent(&rt, serving)?;
    show_call_left(&rt, serving)?;
    show_leave(&rt, serving)?;
    show_k12(&rt)
}
