// The words after the program's name.
use std::fmt;

/// What the program is asked for.
#[derive(Clone, Copy, Debug, PartialEq, Eq)]
pub enum Command {
    /// The columns of the file.
    Columns,
    /// The shape of the file's rows.
    Shape,
}

/// Why the words are no command.
#[derive(Clone, Copy)]
pub enum CommandError<'a> {
    /// There is no command, or a word too many.
    Usage,
    /// No command has this name.
    Unknown(&'a str),
}

impl Command {
    /// The command that the words name.
    // As plain as a `TryFrom` of a list of words, for which nothing asks.
    pub(crate) fn parse(words: &[String]) -> Result<Command, CommandError<'_>> {
        match words {
            [word] => match word.as_str() {
                "columns" => Ok(Command::Columns),
                "shape" => Ok(Command::Shape),
                name => Err(CommandError::Unknown(name)),
            },
            _ => Err(CommandError::Usage),
        }
    }
}

impl fmt::Display for CommandError<'_> {
    fn fmt<W: fmt::Write>(&self, f: &mut fmt::Formatter<W>) -> fmt::Result {
        match *self {
            CommandError::Usage => f.pad("usage: trace columns|shape < FILE"),
            CommandError::Unknown(name) => {
                write!(f, "trace: unknown command {name:?}; known: columns, shape")
            }
        }
    }
}
