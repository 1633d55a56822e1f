// A script that was read.
ghost use Rattle.std.specs.Prelude.{◌≡◌, ◌==◌, length};
ghost use Rattle.cs_trim_script.specs.Fits.{AllFit};

use crate::Event;
use std::marker::Model;

/// The events of a script, in order. Each of them fits one.
#[derive(Drop)]
pub struct Script {
    events: Vec<Event>,
}

impl Model for Script {
    ghost use Rattle.std.specs.Prelude.{List};
    ghost use Rattle.cs_trim_script.specs.Fits.{AllFit};
    ghost use Rattle.cs_trim_script.specs.declared.events.Event.{Event};

    ghost Value = { List Event };

    ghost view = { λ s. s.events.items };

    ghost invariant = { λ s. AllFit s.events.items };
}

impl Script {
    // The script of these events. It takes no memory.
    pub(crate) fn from_events(events: Vec<Event>) -> Self
        requires { AllFit events.items }
        ensures { result ≡ events.items }
    {
        Script { events }
    }

    /// How many events there are.
    pub fn len(&self) -> usize
        ensures { result ≡ length self.now }
    {
        self.events.len()
    }

    /// Whether there is no event.
    pub fn is_empty(&self) -> bool
        ensures { result ≡ (length self.now == 0) }
    {
        self.events.is_empty()
    }

    /// All events.
    pub fn events(&self) -> &[Event]
        ensures events { result.now ≡ self.now }
        ensures fitting { AllFit result.now }
    {
        self.events.as_slice()
    }
}
