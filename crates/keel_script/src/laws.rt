//! What holds of lines and commands, as the contracts of functions that do nothing.
ghost use Rattle.keel_script.specs.Laws.{OneCommand, OwnLine, SaidInGrammar, BlankSaysNothing, PrintableLines};

/// A line says one command at most.
pub fn one_command()
    ensures { OneCommand }
{}

/// Each command of the language is said by the line that `print_command` gives, so it is read from that again.
pub fn own_line()
    ensures { OwnLine }
{}

/// What a line says is a command of the language.
pub fn said_in_grammar()
    ensures { SaidInGrammar }
{}

/// A line that `is_blank` tells says no command.
pub fn blank_says_nothing()
    ensures { BlankSaysNothing }
{}

/// A line that says a command has bytes from 0x20 to 0x7E alone.
pub fn printable_lines()
    ensures { PrintableLines }
{}
