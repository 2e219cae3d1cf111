//! Arguments of the command line of a program that lists captures.

ghost use Rattle.std.specs.Prelude.{◌≡◌};
ghost use Rattle.sslist_command_line.specs.Choice.{argument_at, ends_in_f};
ghost use Rattle.sslist_command_line.specs.Choice.{family_argument, family_named};
ghost use Rattle.sslist_command_line.specs.Choice.{first_rejected_letter};
ghost use Rattle.sslist_command_line.specs.Choice.{first_unknown_letter, flag_argument};
ghost use Rattle.sslist_command_line.specs.Choice.{is_file, is_word, letter_rejection};
ghost use Rattle.sslist_command_line.specs.Choice.{letters_argument, listening_after};
ghost use Rattle.sslist_command_line.specs.Choice.{long_argument, named_value, names_file};
ghost use Rattle.sslist_command_line.specs.Choice.{next_place, option_argument};
ghost use Rattle.sslist_command_line.specs.Choice.{with_argument, with_details};
ghost use Rattle.sslist_command_line.specs.Choice.{with_family, with_letters, with_sockets};
ghost use Rattle.sslist_command_line.specs.Choice.{without_last_f};

use crate::choice::Rejection;
use crate::options::{AnyFamily, Options};
use sock_diag_filters::{index_of, value_of};

/// Letters that may be joined after a hyphen. Not in this list are `f`, which has to be the last
/// one and needs the name of a family, and `h` and `V`, which have to be alone.
const LETTERS: &[u8] = b"tuxM046oemiOHlna";

/// The options without a value that are a whole argument, and what they are parsed as: `-h` and
/// `-V`, which are options only alone, and long names. Those of letters are as in ss(8).
const FLAGS: [(&str, Argument); 25] = [
    ("-h", Argument::Help),
    ("--help", Argument::Help),
    ("-V", Argument::Version),
    ("--version", Argument::Version),
    ("--utf8", Argument::Utf8),
    ("--requests", Argument::Requests),
    ("--json", Argument::Json),
    ("--vsock", Argument::Sockets(AnyFamily::Vsock)),
    ("--xdp", Argument::Sockets(AnyFamily::Xdp)),
    ("--numeric", Argument::Letter(b'n')),
    ("--all", Argument::Letter(b'a')),
    ("--listening", Argument::Letter(b'l')),
    ("--options", Argument::Letter(b'o')),
    ("--extended", Argument::Letter(b'e')),
    ("--memory", Argument::Letter(b'm')),
    ("--info", Argument::Letter(b'i')),
    ("--ipv4", Argument::Letter(b'4')),
    ("--ipv6", Argument::Letter(b'6')),
    ("--packet", Argument::Letter(b'0')),
    ("--tcp", Argument::Letter(b't')),
    ("--udp", Argument::Letter(b'u')),
    ("--unix", Argument::Letter(b'x')),
    ("--mptcp", Argument::Letter(b'M')),
    ("--no-header", Argument::Letter(b'H')),
    ("--oneline", Argument::Letter(b'O')),
];

/// The option with a value, the name of a family.
const FAMILY: &[u8] = b"--family";

/// The families by their names, as the option `-f` of ss(8) has them, and `packet` for `link`.
const FAMILIES: [(&str, AnyFamily); 8] = [
    ("inet", AnyFamily::Inet),
    ("inet6", AnyFamily::Inet6),
    ("unix", AnyFamily::Unix),
    ("netlink", AnyFamily::Netlink),
    ("link", AnyFamily::Packet),
    ("packet", AnyFamily::Packet),
    ("vsock", AnyFamily::Vsock),
    ("xdp", AnyFamily::Xdp),
];

/// What an argument can be, by the arguments before it.
#[derive(Clone, Copy)]
pub(crate) enum Place {
    /// An option or the name of a file.
    Any,
    /// The name of a family, since the argument before it is letters that end in `f`.
    Family,
    /// A word of the filter, since it follows `--`.
    Word,
}

/// An argument of the command line.
#[derive(Clone, Copy)]
pub(crate) enum Argument {
    /// `--help` or `-h`.
    Help,
    /// `--version` or `-V`.
    Version,
    /// `--utf8`.
    Utf8,
    /// `--requests`.
    Requests,
    /// `--json`.
    Json,
    /// An option that selects sockets of a family, or the name of a family after `-f`.
    Sockets(AnyFamily),
    /// A hyphen and letters, each of which is an option.
    Letters {
        /// The last letter is `f`, so that the next argument is the name of a family.
        needs_family: bool,
    },
    /// The long name of this letter.
    Letter(u8),
    /// `--`.
    EndOfOptions,
    /// The name of a file, or `-` for standard input.
    File,
    /// A word of the filter.
    Word,
    /// An argument that is rejected, for this reason.
    Rejected(Rejection),
}

/// Parses an argument by its place: at `Any` as an option or the name of a file, at `Family` as the
/// name of a family, at `Word` as a word of the filter. An invalid one is returned as `Rejected`.
pub(crate) fn argument_at(place: Place, argument: &[u8]) -> Argument
    ensures { result ≡ argument_at place argument.now }
{
    match place {
        Place::Any if is_file(argument) => Argument::File,
        Place::Any => option_argument(argument),
        Place::Family => family_argument(Rejection::UnknownFamily, argument),
        Place::Word => Argument::Word,
    }
}

/// Returns whether an argument that may be an option is the name of a file: it does not begin with
/// a hyphen, or is only a hyphen.
fn is_file(argument: &[u8]) -> bool
    ensures { result ≡ is_file argument.now }
{
    argument.len() < 2 || !argument.starts_with(b"-")
}

/// Parses an option. Any other argument is returned as `Rejected`.
fn option_argument(argument: &[u8]) -> Argument
    ensures { result ≡ option_argument argument.now }
{
    if argument == "--".as_bytes() {
        return Argument::EndOfOptions;
    }
    match flag_argument(argument) {
        Some(parsed) => parsed,
        None if argument.starts_with(b"--") => long_argument(argument),
        None => letters_argument(argument),
    }
}

/// Parses an option without a value that is a whole argument (`FLAGS`). Returns `None` for any
/// other argument.
#[tactic(auto, unfolding(crate::specs::Choice::flag_argument))]
fn flag_argument(argument: &[u8]) -> Option<Argument>
    ensures { result ≡ flag_argument argument.now }
{
    value_of(&FLAGS, argument)
}

/// Parses an argument that begins with two hyphens and is not in `FLAGS`: an option with an equals
/// sign and a value. Any other one is rejected.
fn long_argument(argument: &[u8]) -> Argument
    ensures { result ≡ long_argument argument.now }
{
    match index_of(b'=', argument) {
        Some(index) => named_value(&argument[..index], &argument[index + 1..]),
        None if argument == FAMILY => Argument::Rejected(Rejection::MissingValue),
        None => Argument::Rejected(Rejection::UnknownOption),
    }
}

/// Parses the name of an option and its value. It is rejected if there is no such option, if the
/// option takes no value, or if the value is not the name of a family.
fn named_value(name: &[u8], value: &[u8]) -> Argument
    ensures { result ≡ named_value name.now value.now }
{
    if name == FAMILY {
        family_argument(Rejection::UnknownFamilyValue, value)
    } else if flag_argument(name).is_some() {
        Argument::Rejected(Rejection::UnexpectedValue)
    } else {
        Argument::Rejected(Rejection::UnknownOption)
    }
}

/// Parses letters after a hyphen, such as `-tl`.
fn letters_argument(argument: &[u8]) -> Argument
    ensures { result ≡ letters_argument argument.now }
{
    // An empty argument is the name of a file (`is_file`), and does not get here. Without this test
    // the index below could be out of bounds.
    if argument.is_empty() {
        return Argument::Rejected(Rejection::UnknownOption);
    }
    match first_rejected_letter(&argument[1..]) {
        Some(letter) => Argument::Rejected(letter_rejection(letter)),
        None => Argument::Letters {
            needs_family: ends_in_f(argument),
        },
    }
}

/// Returns the reason to reject letters because of `letter`, the one that [`first_rejected_letter`]
/// finds.
fn letter_rejection(letter: u8) -> Rejection
    ensures { result ≡ letter_rejection letter }
{
    // `-f`, `-h` and `-V` are options, but not at this place.
    if letter == b'f' || letter == b'h' || letter == b'V' {
        Rejection::MisplacedLetter(letter)
    } else {
        Rejection::UnknownLetter(letter)
    }
}

/// Parses the name of a family. `rejection` is the reason to reject any other text.
fn family_argument(rejection: Rejection, name: &[u8]) -> Argument
    ensures { result ≡ family_argument rejection name.now }
{
    match family_named(name) {
        Some(family) => Argument::Sockets(family),
        None => Argument::Rejected(rejection),
    }
}

/// Returns the family of this name, or `None` if there is none.
#[tactic(auto, unfolding(crate::specs::Choice::family_named))]
fn family_named(name: &[u8]) -> Option<AnyFamily>
    ensures { result ≡ family_named name.now }
{
    value_of(&FAMILIES, name)
}

/// Returns the first letter because of which letters are rejected: it is not in [`LETTERS`], and is
/// not an `f` at their end. Returns `None` if there is none.
fn first_rejected_letter(letters: &[u8]) -> Option<u8>
    ensures { result ≡ first_rejected_letter letters.now }
{
    first_unknown_letter(without_last_f(letters))
}

/// Returns the letters without an `f` at their end.
fn without_last_f(letters: &[u8]) -> &[u8]
    ensures { result.now ≡ without_last_f letters.now }
{
    if ends_in_f(letters) {
        &letters[..letters.len() - 1]
    } else {
        letters
    }
}

/// Returns the first letter that is not in [`LETTERS`], or `None` if there is none.
fn first_unknown_letter(letters: &[u8]) -> Option<u8>
    ensures { result ≡ first_unknown_letter letters.now }
{
    for &letter in letters {
        if !LETTERS.contains(&letter) {
            return Some(letter);
        }
    }
    None
}

/// Returns whether the last letter is `f`.
fn ends_in_f(letters: &[u8]) -> bool
    ensures { result ≡ ends_in_f letters.now }
{
    letters.ends_with(b"f")
}

impl Argument {
    /// Returns whether an argument is the name of a file.
    pub(crate) fn names_file(self) -> bool
        ensures { result ≡ names_file self }
    {
        matches!(self, Argument::File)
    }

    /// Returns whether an argument is a word of the filter.
    pub(crate) fn is_word(self) -> bool
        ensures { result ≡ is_word self }
    {
        matches!(self, Argument::Word)
    }

    /// Returns the place of the next argument, after this one at `place`: the name of a family
    /// after letters that end in `f`, a word of the filter after `--` and from then on.
    pub(crate) fn next_place(self, place: Place) -> Place
        ensures { result ≡ next_place place self }
    {
        match (place, self) {
            (Place::Word, _) | (_, Argument::EndOfOptions) => Place::Word,
            (_, Argument::Letters { needs_family: true }) => Place::Family,
            _ => Place::Any,
        }
    }
}

impl Options<'_> {
    /// Sets the options of an argument, if it has any. `parsed` is what [`argument_at`] returned
    /// for it.
    pub(crate) fn add_argument(&mut self, parsed: Argument, argument: &[u8])
        ensures { self.new ≡ with_argument self.old parsed argument.now }
    {
        match parsed {
            Argument::Utf8 => self.utf8 = true,
            Argument::Requests => self.requests = true,
            Argument::Json => self.json = true,
            Argument::Sockets(family) => self.add_family(family),
            // The letters follow a hyphen, so the argument is never empty.
            Argument::Letters { .. } if !argument.is_empty() => self.add_letters(&argument[1..]),
            Argument::Letter(letter) => self.add_letters(&[letter]),
            // Other arguments set no option.
            _ => {}
        }
    }

    /// Selects sockets of a family.
    fn add_family(&mut self, family: AnyFamily)
        ensures { self.new ≡ with_family family self.old }
    {
        match family {
            AnyFamily::Inet => self.inet = true,
            AnyFamily::Inet6 => self.inet6 = true,
            AnyFamily::Unix => self.unix = true,
            AnyFamily::Netlink => self.netlink = true,
            AnyFamily::Packet => self.packet = true,
            AnyFamily::Vsock => self.vsock = true,
            AnyFamily::Xdp => self.xdp = true,
        }
    }

    /// Sets the option of each of these letters.
    fn add_letters(&mut self, letters: &[u8])
        ensures { self.new ≡ with_letters letters.now self.old }
    {
        self.add_details(letters);
        self.add_sockets(letters);
    }

    /// Sets the options of those letters that select details or the format.
    fn add_details(&mut self, letters: &[u8])
        ensures { self.new ≡ with_details letters.now self.old }
    {
        self.timer |= letters.contains(&b'o');
        self.extended |= letters.contains(&b'e');
        self.memory |= letters.contains(&b'm');
        self.connection |= letters.contains(&b'i');
        self.one_line |= letters.contains(&b'O');
        self.no_heading |= letters.contains(&b'H');
    }

    /// Sets the options of those letters that select sockets.
    fn add_sockets(&mut self, letters: &[u8])
        ensures { self.new ≡ with_sockets letters.now self.old }
    {
        self.tcp |= letters.contains(&b't');
        self.udp |= letters.contains(&b'u');
        self.mptcp |= letters.contains(&b'M');
        self.unix |= letters.contains(&b'x');
        self.packet |= letters.contains(&b'0');
        self.inet |= letters.contains(&b'4');
        self.inet6 |= letters.contains(&b'6');
        self.listening = listening_after(self.listening, letters);
    }
}

/// Returns whether only listening sockets are listed after these letters. The last letter that is
/// `l` or `a` decides: `l` for yes, `a` for no. If there is no such letter, returns `before`.
fn listening_after(before: bool, letters: &[u8]) -> bool
    ensures { result ≡ listening_after before letters.now }
{
    let mut listening = before;
    for &letter in letters {
        if letter == b'l' {
            listening = true;
        } else if letter == b'a' {
            listening = false;
        }
    }
    listening
}
