//! The request of a command line to a program that lists captures.

ghost use Rattle.std.specs.Prelude.{map, string_bytes};
ghost use Rattle.sslist_command_line.specs.Choice.{IsChoice};

use crate::arguments::{Argument, Place, argument_at};
use crate::options::Options;

/// The reason why an argument is rejected.
#[derive(Clone, Copy, Debug, PartialEq, Eq)]
pub enum Rejection {
    /// It is an unknown long option.
    UnknownOption,
    /// It is a hyphen and letters. The first of them that is not an option, as a byte, is here.
    UnknownLetter(u8),
    /// It is a hyphen and letters. The first of them that is not an option at its place is here: an
    /// `f` that is not the last letter, or an `h` or `V` that is not the only one.
    MisplacedLetter(u8),
    /// It is `--family` without an equals sign and a value.
    MissingValue,
    /// It is a long option that takes no value, with an equals sign and a value.
    UnexpectedValue,
    /// It follows letters that end in `f`, and is not the name of a family.
    UnknownFamily,
    /// It is `--family=` with a value that is not the name of a family.
    UnknownFamilyValue,
}

/// The request of a command line.
#[derive(Clone, Copy, Debug)]
pub enum Choice<'a> {
    /// Print the help text.
    Help,
    /// Print the version.
    Version,
    /// Reject this argument, for this reason.
    Reject(Rejection, &'a str),
    /// Reject the command line: it ends in letters that end in `f`, without the name of a family.
    MissingFamily,
    /// List captures with these options, and the filter whose text [`filter_text`] returns.
    ///
    /// [`filter_text`]: crate::filter_text
    Captures(Options<'a>),
}

/// Returns what the arguments after the program's name request. The first one that requests the
/// help text or the version, or is rejected ([`Rejection`]), decides. If there is none, captures
/// are listed with the options of all arguments; but if the last one is letters that end in `f`,
/// the name of a family is missing. Names of files and words of the filter are not considered.
pub fn choose(arguments: &[String]) -> Choice<'_>
    ensures { IsChoice (map string_bytes arguments.entry.now) result }
{
    let mut options = Options::default();
    let mut place = Place::Any;
    for argument in arguments {
        let parsed = argument_at(place, argument.as_bytes());
        match parsed {
            Argument::Help => return Choice::Help,
            Argument::Version => return Choice::Version,
            Argument::Rejected(reason) => return Choice::Reject(reason, argument.as_str()),
            _ => options.add_argument(parsed, argument.as_bytes()),
        }
        place = parsed.next_place(place);
    }
    match place {
        Place::Family => Choice::MissingFamily,
        Place::Any | Place::Word => Choice::Captures(options),
    }
}
