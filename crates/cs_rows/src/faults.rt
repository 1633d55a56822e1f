// Inputs that are no scripts, each with its first bad line.
ghost use Rattle.std.specs.Prelude.{◌≡◌, [], Ok, Err};
ghost use Rattle.cs_laws.specs.declared.faults.Kind.TheVariants as kinds;
ghost use Rattle.cs_laws.specs.Grammar.{script_of};
ghost use Rattle.cs_rows.specs.Faults as inputs;

/// No bytes are no script.
pub fn empty_input()
    ensures { script_of [] ≡ Err (record { line = 1; kind = kinds.Header }) }
{}

/// A line of 4,097 bytes is too long.
pub fn long_line()
    ensures { script_of inputs.long_line ≡ Err (record { line = 2; kind = kinds.Long }) }
{}

/// An event that isn't built yet, in the line behind a comment.
pub fn later_event()
    ensures { script_of inputs.later_event ≡ Err (record { line = 3; kind = kinds.NotBuilt }) }
{}

/// A number has no leading zero.
pub fn leading_zero()
    ensures { script_of inputs.leading_zero ≡ Err (record { line = 2; kind = kinds.Number }) }
{}

/// A reference ends at the greatest size of a file, or before.
pub fn end_too_far()
    ensures { script_of inputs.end_too_far ≡ Err (record { line = 5; kind = kinds.Range }) }
{}

/// Files stand before all other events.
pub fn late_file()
    ensures { script_of inputs.late_file ≡ Err (record { line = 4; kind = kinds.Late }) }
{}

/// A line of 4,096 bytes is not too long.
pub fn longest_line()
    ensures { script_of inputs.longest_line ≡ Ok [] }
{}

/// The first bad line, and what is wrong with it first: a further word before a line that stands too late.
pub fn first_faults()
    ensures { inputs.AreRefused inputs.first_faults }
{}

/// What is too long: a line before all else, the digits of a write only where they are pairs.
pub fn long_lines()
    ensures { inputs.AreRefused inputs.long_lines }
{}
