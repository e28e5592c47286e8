ghost use Rattle.std.specs.Prelude.{◌≡◌};

/// Returns the library's version: 10,000 * major + 100 * minor + patch.
#[unsafe(no_mangle)]
pub extern "C" fn bw_version() -> u32
    ensures { result ≡ 200 }
{
    200
}
