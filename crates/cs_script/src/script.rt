// A script that was read.
ghost use Rattle.std.specs.Prelude.{◌≡◌, ◌==◌, length, option_copied, slice_get, true, IfSome};
ghost use Rattle.cs_laws.specs.Fits.{fits};
ghost use Rattle.cs_laws.specs.Runs.{IsScript};

use cs_laws::Event;
use std::marker::Model;

/// The events of a script, in order. Each of them fits a script, and setup lines stand before all
/// others.
#[derive(Drop)]
pub struct Script {
    events: Vec<Event>,
}

impl Model for Script {
    ghost use Rattle.std.specs.Prelude.{List};
    ghost use Rattle.cs_laws.specs.Runs.{IsScript};
    ghost use Rattle.cs_laws.specs.declared.events.Event.{Event};

    ghost Value = { List Event };

    ghost view = { λ s. s.events.items };

    ghost invariant = { λ s. IsScript s.events.items };
}

impl Script {
    // The script of these events. It takes no memory.
    pub(crate) fn from_events(events: Vec<Event>) -> Self
        requires { IsScript events.items }
        ensures { result ≡ events.items }
    {
        Script { events }
    }

    /// How many events there are.
    pub fn len(&self) -> usize
        ensures { result ≡ length self.now }
    {
        self.events.len()
    }

    /// Whether there is no event.
    pub fn is_empty(&self) -> bool
        ensures { result ≡ (length self.now == 0) }
    {
        self.events.is_empty()
    }

    /// The event at a place, counted from 0, or None exactly past the end.
    pub fn event(&self, i: usize) -> Option<&Event>
        ensures event { option_copied result ≡ slice_get self.now i }
        ensures fitting { IfSome result (λ e. fits e.now ≡ true) }
    {
        self.events.get(i)
    }

    /// All events.
    pub fn events(&self) -> &[Event]
        ensures events { result.now ≡ self.now }
        ensures script { IsScript result.now }
    {
        self.events.as_slice()
    }
}
