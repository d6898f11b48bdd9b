// The changes that the steps make to a control, each with all its fields, since a control that is copied as a whole waits for stores: see
// `record::record::renewed`.
ghost use Rattle.std.specs.Prelude.{◌≡◌, ◌<◌};
ghost use Rattle.steps.specs.Private.Changes.{defunct_in, counted_in, answered_in, handed_in};

use crate::streams::Opened;
use record::record::Control;
use record::ring;
use states::state::State;

// The connection is closed: nothing waits and no stream is open.
pub fn defunct(control: Control) -> Control
    ensures { result ≡ defunct_in control }
{
    Control {
        state: State::Defunct as u8,
        in_flight: 0,
        first: control.first,
        waiting: 0,
        opened: 0,
        next: control.next,
        accepted: control.accepted,
        sent: control.sent,
    }
}

// One request more is accepted, with `opened` streams open.
pub fn counted(control: Control, state: State, opened: usize) -> Control
    requires { (control.waiting < 32) × (control.accepted < 4294967295) }
    ensures { result ≡ counted_in control state opened }
{
    Control {
        state: state as u8,
        in_flight: control.in_flight,
        first: control.first,
        waiting: control.waiting + 1,
        opened,
        next: control.next,
        accepted: control.accepted + 1,
        sent: control.sent,
    }
}

// The first request is answered: one summary more is sent, and `left` requests wait from the place behind it on.
pub fn answered(control: Control, state: State, opened: Opened, left: usize) -> Control
    requires { control.sent < 4294967295 }
    ensures { result ≡ answered_in control state opened.count opened.next left }
{
    Control {
        state: state as u8,
        in_flight: 0,
        first: ring::behind(control.first),
        waiting: left,
        opened: opened.count,
        next: opened.next,
        accepted: control.accepted,
        sent: control.sent + 1,
    }
}

// The first request is in flight.
pub fn handed(control: Control) -> Control
    ensures { result ≡ handed_in control }
{
    Control {
        state: control.state,
        in_flight: 1,
        first: control.first,
        waiting: control.waiting,
        opened: control.opened,
        next: control.next,
        accepted: control.accepted,
        sent: control.sent,
    }
}
