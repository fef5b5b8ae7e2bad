// The processor record and the controls in force.
ghost use Rattle.std.specs.Prelude.{◌≡◌, ◌%◌};
ghost use Rattle.processor.specs.Controls.{is_on, control_bit, flags_in_bounds, eoi_exit_word, eoi_exit, fresh, outside};

// The controls, each by the bit at which it is stored.
#[derive(Clone, Copy)]
pub enum Control {
    UseTprShadow,
    VirtualizeApicAccesses,
    VirtualizeX2apicMode,
    ApicRegisterVirtualization,
    VirtualDelivery,
    ExternalInterruptExiting,
    InterruptWindowExiting,
    Cr8LoadExiting,
    Cr8StoreExiting,
    ProcessPostedInterrupts,
    AcknowledgeOnExit,
}

impl Control {
    // The bit at which the control is stored.
    pub fn bit(self) -> u8
        ensures { result ≡ control_bit self }
    {
        match self {
            Control::UseTprShadow => 0,
            Control::VirtualizeApicAccesses => 1,
            Control::VirtualizeX2apicMode => 2,
            Control::ApicRegisterVirtualization => 3,
            Control::VirtualDelivery => 4,
            Control::ExternalInterruptExiting => 5,
            Control::InterruptWindowExiting => 6,
            Control::Cr8LoadExiting => 7,
            Control::Cr8StoreExiting => 8,
            Control::ProcessPostedInterrupts => 9,
            Control::AcknowledgeOnExit => 10,
        }
    }
}

// The EOI-exit bits stand in four fields: `stored-over` of keeping/proofs/RoundTrip.antt holds of every `Controls`, and an array is in it a
// list of any length.
#[derive(Clone, Copy, Default)]
pub struct Controls {
    pub flags: u32,
    pub threshold: u32,
    pub notification: u16,
    pub eoi_exit_0: u64,
    pub eoi_exit_1: u64,
    pub eoi_exit_2: u64,
    pub eoi_exit_3: u64,
}

#[derive(Clone, Copy, Default)]
pub struct Record {
    pub guest: bool,
    pub rvi: u8,
    pub svi: u8,
    pub recognised: bool,
    pub controls: Controls,
}

impl Controls {
    // The control of a bit is on; bits count mod 32. It answers for every number, so that it takes no `Control`.
    pub fn is_on(self, control: u8) -> bool
        ensures { result ≡ is_on self (control % 32) }
    {
        let at = control % 32;
        (self.flags >> at) % 2 == 1
    }

    // The control is on.
    pub fn has(self, control: Control) -> bool
        ensures { result ≡ is_on self (control_bit control) }
    {
        self.is_on(control.bit())
    }

    // The flags have no bit above bit 10.
    pub fn flags_in_bounds(self) -> bool
        ensures { result ≡ flags_in_bounds self }
    {
        self.flags < 2048
    }

    fn eoi_exit_word(self, word: u8) -> u64
        ensures { result ≡ eoi_exit_word self word }
    {
        match word {
            0 => self.eoi_exit_0,
            1 => self.eoi_exit_1,
            2 => self.eoi_exit_2,
            _ => self.eoi_exit_3,
        }
    }

    // The EOI-exit bit of a vector.
    pub fn eoi_exit(self, vector: u8) -> bool
        ensures { result ≡ eoi_exit self vector }
    {
        let word = self.eoi_exit_word(vector / 64);
        let at = vector % 64;
        (word >> at) % 2 == 1
    }
}

impl Record {
    // Root mode and recognition off, as after every exit.
    pub fn outside(self) -> Record
        ensures { result ≡ outside self }
    {
        let mut next = self;
        next.guest = false;
        next.recognised = false;
        next
    }
}

// The record before any event: root mode, all zero.
pub fn fresh_record() -> Record
    ensures { result ≡ fresh }
{
    Record::default()
}
