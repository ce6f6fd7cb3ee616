//! `--version`: the name of the program and its version.

ghost use Rattle.std.specs.Prelude.{◌≡◌};
ghost use Rattle.pipe_cli.specs.Commands.VersionCommand.{version_text};

/// The text that `--version` writes.
pub(crate) fn version_text() -> &'static str
    ensures { result.now ≡ version_text }
{
    "liskevar 0.1.0\n"
}
