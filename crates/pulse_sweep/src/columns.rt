//! What the events of a cycle say of a pulse.

ghost use Rattle.std.specs.Prelude.{◌≡◌, ◌≤◌, ◌^◌, None};
ghost use Rattle.pulse_sweep.specs.internal.Told.{columns_of, event_columns, joined_columns};

use irq_padding::{ARRIVAL, PADDING};
use tracer::Event;

/// What a run says of a pulse, each by the first event from the pulse on that tells it.
#[derive(Clone, Copy, Debug, PartialEq, Eq)]
pub struct Columns {
    /// How many cycles after the pulse the handler begins.
    pub begins: Option<u64>,
    /// The cycle in which a module is left.
    pub leaves: Option<u64>,
    /// The cycle in which a byte is sent.
    pub sends: Option<u64>,
}

impl Columns {
    /// Nothing yet.
    pub fn new() -> Columns
        ensures { result ≡ record { begins = None; leaves = None; sends = None } }
    {
        Columns {
            begins: None,
            leaves: None,
            sends: None,
        }
    }

    /// These numbers, and where one is not there the other's.
    pub fn or(self, other: Columns) -> Columns
        ensures { result ≡ joined_columns self other }
    {
        Columns {
            begins: self.begins.or(other.begins),
            leaves: self.leaves.or(other.leaves),
            sends: self.sends.or(other.sends),
        }
    }
}

/// What the events of a cycle say of a pulse: nothing before it.
pub fn columns_of(pulse: u64, cycle: u64, events: &[Event]) -> Columns
    requires { cycle ≤ 2 ^ 62 }
    ensures { result ≡ columns_of pulse cycle events.now }
{
    let mut columns = Columns::new();
    if cycle < pulse {
        return columns;
    }
    for event in events {
        columns = columns.or(event_columns(pulse, cycle, event));
    }
    columns
}

// What an event of a cycle says of a pulse.
fn event_columns(pulse: u64, cycle: u64, event: &Event) -> Columns
    requires after { pulse ≤ cycle }
    requires number { cycle ≤ 2 ^ 62 }
    ensures { result ≡ event_columns pulse cycle event.now }
{
    let mut columns = Columns::new();
    let since = cycle - pulse;
    match event {
        Event::Irq { .. } => columns.begins = Some(since + u64::from(ARRIVAL) + 1),
        Event::Hide { .. } => columns.begins = Some(since + u64::from(PADDING) + 1),
        Event::Leave { .. } => columns.leaves = Some(cycle),
        Event::Out { .. } => columns.sends = Some(cycle),
        _ => {}
    }
    columns
}
