// The lines for standard error where something could not be done.
#![tactic(auto)]

ghost use Rattle.std.specs.Prelude.{◌≡◌};
ghost use Rattle.program_lines.specs.Lines.{unread_line, unwritten_line};

// A line for standard error: a read failed, so there is no stream.
pub fn unread() -> [u8; 59]
    ensures { result ≡ unread_line }
{
    *b"cesr: standard input could not be read: nothing was judged\n"
}

// A line for standard error: standard output did not take all of the answer.
pub fn unwritten() -> [u8; 68]
    ensures { result ≡ unwritten_line }
{
    *b"cesr: standard output could not be written: the report is not whole\n"
}
