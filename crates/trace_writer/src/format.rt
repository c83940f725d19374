//! The two formats of a trace.

ghost use Rattle.std.specs.Prelude.{◌≡◌, ◌==◌};
ghost use Rattle.trace_writer.specs.Anew.{format_of, may_keep};

/// The format of a trace.
#[derive(Clone, Copy, Debug, PartialEq, Eq)]
pub enum Format {
    /// Format 1: each line has the values of all inputs, in declared order.
    Plain,
    /// Format 2: a header names the inputs, and `_` stands for a value that stays as it was.
    Headed,
}

impl Format {
    /// The format with that number: 2 is the headed one, and any other the plain one.
    pub fn of_number(number: u32) -> Format
        ensures { result ≡ format_of number }
    {
        if number == 2 {
            Format::Headed
        } else {
            Format::Plain
        }
    }

    /// Whether a value may be left out that stays as it was.
    pub(crate) fn may_keep(self) -> bool
        ensures { result ≡ may_keep self }
    {
        match self {
            Format::Plain => false,
            Format::Headed => true,
        }
    }
}
