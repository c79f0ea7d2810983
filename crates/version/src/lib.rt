// The archive's version.
#![tactic(auto)]

ghost use Rattle.std.specs.Prelude.{◌≡◌};
ghost use Rattle.version.specs.Version.{archive_version};

const MAJOR: u32 = 1;

const MINOR: u32 = 0;

const PATCH: u32 = 0;

// The version as one number, so that versions compare by <.
pub fn number() -> u32
    ensures { result ≡ archive_version }
{
    MAJOR * 1000000 + MINOR * 1000 + PATCH
}
