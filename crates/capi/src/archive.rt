// The version of the archive itself, for a program that was compiled with another header than the archive's own.
ghost use Rattle.std.specs.Prelude.{◌≡◌};
ghost use Rattle.version.specs.Version.{archive_version};

#[unsafe(no_mangle)]
pub extern "C" fn wattlerugby_version_number() -> u32
    ensures { result ≡ archive_version }
{
    version::number()
}
