// Lines whose fields are at the ends of their ranges. Each spells an event, and the event prints as the line.
ghost use Rattle.cs_rows.specs.GoodLines.{AreRead, ArePrinted};
ghost use Rattle.cs_rows.specs.GoodLines as lines;

/// Each form of event, with the least and the greatest value of each field.
pub fn each_form()
    ensures read { AreRead lines.rows }
    ensures printed { ArePrinted lines.rows }
{}

/// A write of 1,024 bytes.
pub fn longest_write()
    ensures read { AreRead lines.longest_write }
    ensures printed { ArePrinted lines.longest_write }
{}
