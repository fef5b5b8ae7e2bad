// One record of a trace, carried out on a lent page.
#![tactic(auto, using(crate::proofs::Tell::one_digit), unfolding(recorded::specs::Session::answer_to, recorded::specs::Session::session_after, trace::specs::Records::boundary_of, trace::specs::Records::event_of, trace::specs::Records::memory_read_of, trace::specs::Records::memory_write_of, trace::specs::Records::to_cr8_of, trace::specs::Records::wrmsr_of))]

ghost use Rattle.processor.specs.Controls.{with_controls};
ghost use Rattle.session.specs.Told.{Begins, ControlsTold, EntryTold, Tells, session_of};
ghost use Rattle.trace.specs.Format.{kind_of};
ghost use Rattle.std.specs.Prelude.{eqb, false, ◌≡◌};

use crate::kinds::event_outcome;
use events::answer::{Answer, Numbers};
use events::kind::Kind;
use model::fresh_record;
use model::kinds::entry;
use page::bytes::byte_at;
use processor::controls::{Controls, Record};
use trace::kinds::{KIND, RecordKind};
use trace::records::controls_of;

mod kinds;

// What is held beside the page: the processor record, and the controls for later entries.
#[derive(Clone, Copy)]
pub struct State {
    pub record: Record,
    pub controls: Controls,
}

// An answer's numbers, and what is held after it.
#[derive(Clone, Copy)]
pub struct Told {
    pub numbers: Numbers,
    pub state: State,
}

// The same controls, field by field: a copy carries the bytes between fields along, and a replayed entry takes more instructions by it.
fn by_fields(controls: Controls) -> Controls
    ensures { result ≡ controls }
{
    Controls {
        flags: controls.flags,
        threshold: controls.threshold,
        notification: controls.notification,
        eoi_exit_0: controls.eoi_exit_0,
        eoi_exit_1: controls.eoi_exit_1,
        eoi_exit_2: controls.eoi_exit_2,
        eoi_exit_3: controls.eoi_exit_3,
    }
}

// A record with controls, field by field too.
fn with_controls(record: Record, controls: Controls) -> Record
    ensures { result ≡ with_controls «record» controls }
{
    Record {
        guest: record.guest,
        rvi: record.rvi,
        svi: record.svi,
        recognised: record.recognised,
        controls: by_fields(controls),
    }
}

// A fresh record, and all controls zero.
pub fn begin() -> State
    ensures { Begins result }
{
    let fresh = fresh_record();
    State {
        record: with_controls(fresh, fresh.controls),
        controls: by_fields(fresh.controls),
    }
}

// Kind 0: the controls for later entries, quiet in either mode.
fn controls_told(state: State, body: &[u8]) -> Told
    ensures { ControlsTold state body.now result }
{
    Told {
        numbers: Answer::Quiet.into(),
        state: State {
            controls: controls_of(body),
            ..state
        },
    }
}

// Kind 1: an entry with the controls for later entries.
fn entry_told(page: &mut [u8], state: State) -> Told
    ensures { EntryTold page.old state result page.new }
{
    let outcome = entry(page, state.record, by_fields(state.controls));
    Told {
        numbers: outcome.answer.into(),
        state: State {
            record: with_controls(outcome.record, outcome.record.controls),
            controls: by_fields(state.controls),
        },
    }
}

// Every other kind: its event, which leaves the controls in force.
fn event_told(page: &mut [u8], state: State, body: &[u8]) -> Told
    ensures { eqb (kind_of body.now) 0 ≡ false → eqb (kind_of body.now) 1 ≡ false → Tells (session_of page.old state) body.now result page.new }
{
    let outcome = event_outcome(page, state.record, body);
    Told {
        numbers: outcome.answer.into(),
        state: State {
            record: with_controls(outcome.record, state.record.controls),
            controls: by_fields(state.controls),
        },
    }
}

// Carries out one record that can be read. Two tests of the kind, and no match: by a match, a record of a replay takes 12 to 30
// instructions more.
pub fn carried_out(page: &mut [u8], state: State, body: &[u8]) -> Told
    ensures { Tells (session_of page.old state) body.now result page.new }
{
    let kind = RecordKind::try_from(byte_at(body, KIND));
    if let Ok(RecordKind::Controls) = kind {
        return controls_told(state, body);
    }
    if let Ok(RecordKind::Event(Kind::Entry)) = kind {
        return entry_told(page, state);
    }
    event_told(page, state, body)
}
