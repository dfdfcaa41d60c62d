// The version of the calls for C and Rust, by which a caller sees that header and library belong together.
ghost use Rattle.std.specs.Prelude.{◌≡◌};
ghost use Rattle.capi_answers.specs.Version.{version_built};

// SHEET_VERSION_MAJOR and SHEET_VERSION_MINOR of `include/sheet.h`, in one number.
const VERSION: u32 = 393217;

pub fn version_built() -> u32
    ensures { result ≡ version_built }
{
    VERSION
}
