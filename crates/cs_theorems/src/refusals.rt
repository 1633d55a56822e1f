// What a refused event leaves.
ghost use Rattle.std.specs.Prelude.{◌≡◌, ℕ, List, ◌∷◌, true};
ghost use Rattle.cs_laws.specs.declared.events.Event.{Event};
ghost use Rattle.cs_laws.specs.declared.answers.Entry.{Entry};
ghost use Rattle.cs_laws.specs.Answers.{answer};
ghost use Rattle.cs_laws.specs.Journal.{entry};
ghost use Rattle.cs_laws.specs.Refusals.{is_refusal};
ghost use Rattle.cs_theorems.specs.Refusals.{IsAsBefore};

/// An event that is refused changes the journal alone: every other function of the history is as
/// before.
pub fn refused_events_change_the_journal_alone()
    ensures { (pages : ℕ) (h : List Entry) (e : Event) → is_refusal e (answer pages h e) ≡ true
        → IsAsBefore h (entry pages h e ∷ h) }
{}
