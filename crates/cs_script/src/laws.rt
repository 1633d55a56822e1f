//! What holds of every event and of every line. These functions do nothing: each is there for its contract.

ghost use Rattle.std.specs.Prelude.{◌≡◌, ◌↔◌, All, List, ℕ, true, Ok};
ghost use Rattle.cs_laws.specs.declared.events.Event.{Event};
ghost use Rattle.cs_laws.specs.Fits.{fits};
ghost use Rattle.cs_laws.specs.Grammar.{Words, event_of, script_of, words_in};
ghost use Rattle.cs_laws.specs.Runs.{IsScript};
ghost use Rattle.cs_laws.specs.Texts.{event_text};
ghost use Rattle.cs_script.specs.Spelling.{IsEvent, script_text};

/// Each event that fits is read from the text that `print_event` adds. So an event fits exactly where a line
/// spells it, with no exception: `IsEvent` says no more than that each field is in the range of its type.
pub fn each_event_is_read()
    ensures read { (e : Event) → IsEvent e → fits e ≡ true → event_of (words_in (event_text e)) ≡ Ok e }
    ensures fits { (e : Event) → IsEvent e
        → (fits e ≡ true) ↔ ((line : List ℕ) × (event_of (words_in line) ≡ Ok e)) }
{}

/// A script with a line for each event, each of which fits, with the setup lines first, is read as these
/// events.
pub fn each_script_is_read()
    ensures { (es : List Event) → All IsEvent es → IsScript es → script_of (script_text es) ≡ Ok es }
{}

/// What is read is an event that fits, and the words, and so the line, are those of its one text.
pub fn only_events_are_read()
    ensures words { (ws : Words) (e : Event) → event_of ws ≡ Ok e
        → IsEvent e × (fits e ≡ true) × (words_in (event_text e) ≡ ws) }
    ensures line { (line : List ℕ) (e : Event) → event_of (words_in line) ≡ Ok e → event_text e ≡ line }
{}
