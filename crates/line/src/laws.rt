ghost use Rattle.line.specs.Fields.{Parts};
ghost use Rattle.line.specs.Numbers.{DecimalTexts};
ghost use Rattle.line.specs.Texts.{OneText};

/// The fields joined by commas are the line, and none holds a comma.
pub fn fields_are_parts()
    ensures { Parts }
{}

/// The number fields are exactly the decimal texts of 0 to 255, one for each number.
pub fn number_fields_are_decimal()
    ensures { DecimalTexts }
{}

/// Each command is read from one text, and from no other.
pub fn every_command_has_one_text()
    ensures { OneText }
{}
