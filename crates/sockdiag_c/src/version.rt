//! The version of the library.

ghost use Rattle.std.specs.Prelude.{◌≡◌};

/// The version of the library as a number.
pub(crate) const VERSION: u32 = 1_000_000;

/// Returns the version of the library as a number: 1,000,000 times the first number of the version,
/// plus 1,000 times the second one, plus the third one. It is `SOCKDIAG_VERSION_NUMBER` of the
/// header that the library was built with.
#[unsafe(no_mangle)]
pub extern "C" fn sockdiag_version() -> u32
    ensures { result ≡ VERSION }
{
    VERSION
}
