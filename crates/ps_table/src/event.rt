//! What a run did.
ghost use Rattle.std.specs.Prelude.{◌≡◌, IfOk};

use crate::col::Col;
use ps_formula::World;
use ps_io::{List, NoMemory};
use std::alloc::Global;

/// An event of a run.
#[derive(Debug, Drop, PartialEq, Eq)]
pub enum Event {
    /// Column `enter` became basic in row `leave`, from 0.
    Pivot { enter: Col, leave: u32 },
    /// A world was priced; it is the next to get a column.
    Priced { world: World },
}

impl Event {
    /// An equal event.
    pub fn copy(&self, alloc: Global) -> Result<Event, NoMemory>
        ensures { IfOk result (λ event. event ≡ self.now) }
    {
        match self {
            Event::Pivot { enter, leave } => Ok(Event::Pivot {
                enter: *enter,
                leave: *leave,
            }),
            Event::Priced { world } => Ok(Event::Priced {
                world: world.copy(alloc)?,
            }),
        }
    }
}

/// The events of a run, in order.
pub type Trace = List<Event>;

/// Equal events.
pub fn trace_copy(alloc: Global, events: &[Event]) -> Result<Trace, NoMemory>
    ensures { IfOk result (λ copy. copy ≡ events.now) }
{
    let mut copy = List::new(alloc);
    for event in events {
        copy.push(event.copy(alloc)?)?;
    }
    Ok(copy)
}
