//! The version of the library, which is that of the program. The file VERSION at the top of the repository has it, and
//! `build` refuses numbers that differ from it.

ghost use Rattle.std.specs.Prelude.{◌≡◌};
ghost use Rattle.flow_c.specs.Versions.{version_number};

const MAJOR: u32 = 2;

const MINOR: u32 = 0;

const PATCH: u32 = 0;

/// The version as one number: a million for each major version, a thousand for each minor one, and the patches.
#[unsafe(no_mangle)]
pub extern "C" fn flowshop_version() -> u32
    ensures { result ≡ version_number MAJOR MINOR PATCH }
{
    MAJOR * 1_000_000 + MINOR * 1_000 + PATCH
}
