// The version that the library was built with.
ghost use Rattle.std.specs.Prelude.{◌≡◌};
ghost use Rattle.capi_answers.specs.Version.{version_built};

#[unsafe(no_mangle)]
pub extern "C" fn sheet_version() -> u32
    ensures { result ≡ version_built }
{
    capi_answers::version_built()
}
