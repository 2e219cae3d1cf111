//! The command line of a program that answers lines.

ghost use Rattle.std.specs.Prelude.{◌≡◌, ◌↔◌, ◌∷◌, [], codes, map, string_bytes};
ghost use Rattle.std.proofs.Common.{rules};
ghost use Rattle.sock_diag_lines.specs.declared.arguments.Choice.TheVariants.{Help, Strict};
ghost use Rattle.sock_diag_lines.specs.declared.arguments.Choice.TheVariants.{Version};

use netlink_core::Exact;

/// The text that `--help` prints.
pub const HELP: &str = "\
Usage: sockdiag [--strict | --help | --version]

Reads lines from standard input and writes one answer line for each. A line is
a name, a space and a hex field:

    unixreq 01000000020400003412000004000000ffffffffffffffff

Names: unixreq, unix, unixview, inetreq, inet, sockid4, sockid6, message,
netlink, and dump, which takes one or more fields.

  --strict   exit with status 3 if an answer is not ok or a dump failed
  --help     print this text and exit
  --version  print the version and exit

An option has an effect only if it is the sole argument. Other arguments are
ignored.

Exit status: 0 at the end of input; 1 if a read, a write or an allocation
failed (details on standard error); 3 under --strict, see above.";

/// What the command line requests.
#[derive(Clone, Copy, Debug, PartialEq, Eq)]
pub enum Choice {
    /// Answer the lines of standard input.
    Answer,
    /// Answer lines, with exit status 3 if an answer is not `ok` or a dump failed.
    Strict,
    /// Print the help text.
    Help,
    /// Print the version.
    Version,
}

impl Exact for Choice {
    ghost exact = { Prim.search rules };
}

/// Returns what the command line requests, given the arguments after the program's name: `Strict`,
/// `Help` or `Version` if and only if the only argument is `--strict`, `--help` or `--version`;
/// else `Answer`.
pub fn choose(arguments: &[String]) -> Choice
    ensures strict { (result ≡ Strict) ↔ (map string_bytes arguments.now ≡ codes "--strict" ∷ []) }
    ensures help { (result ≡ Help) ↔ (map string_bytes arguments.now ≡ codes "--help" ∷ []) }
    ensures version { (result ≡ Version)
        ↔ (map string_bytes arguments.now ≡ codes "--version" ∷ []) }
{
    let [argument] = arguments else {
        return Choice::Answer;
    };
    match argument.as_str() {
        "--strict" => Choice::Strict,
        "--help" => Choice::Help,
        "--version" => Choice::Version,
        _ => Choice::Answer,
    }
}
