//! The modes of the program.

ghost use Rattle.std.specs.Prelude.{◌≡◌};
ghost use Rattle.rstar_run.specs.Modes.{mode_named};

/// A mode of the program.
#[derive(Clone, Copy, Debug, PartialEq, Eq)]
pub enum Mode {
    /// Answers lines.
    Run,
    /// Writes the stored form of points.
    Pack,
    /// Prints the points of a stored tree.
    Unpack,
}

/// The mode that one word names.
pub fn mode_named(word: &str) -> Option<Mode>
    ensures { result ≡ mode_named word.now }
{
    match word {
        "pack" => Some(Mode::Pack),
        "unpack" => Some(Mode::Unpack),
        _ => None,
    }
}
