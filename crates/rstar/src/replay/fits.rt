//! The tests that commands may be run.

ghost use Rattle.std.specs.Prelude.{◌↔◌, ◌≤◌, IsTrue};
ghost use Rattle.std.specs.List.{AllByRecursion};
ghost use Rattle.rstar.specs.Lists.{NoneEmpty};
ghost use Rattle.rstar.specs.Steps.{IsFit};

use crate::algorithm::bulk_load::none_empty;
use crate::replay::{Command, Scanned};
use rstar_base::{Envelope, EqualEnvelopes, Point, PointDistance, PointOf, RTreeNum, RTreeObject};

/// Whether `step` may run a command. No element in it has an empty envelope, and the points of a load or a
/// join have at least two axes. It looks at each element of the command.
pub fn is_fit<T: PointDistance + EqualEnvelopes>(command: &Command<T>) -> bool
    ensures { IsTrue result ↔ IsFit ⟦<T as Scanned>⟧.questions T.Envelope.Point.DIMENSIONS command.now }
{
    match command {
        Command::Load(list) => is_loadable(list),
        Command::Join(list) => is_loadable(list),
        Command::Insert(t) => !t.envelope().is_empty(),
        Command::Remove(_) => true,
        Command::RemoveAtPoint(_) => true,
        Command::PopNearest(_) => true,
        Command::Drain(_, _) => true,
        Command::Ask(_) => true,
        Command::Contains(_) => true,
        Command::Nearest(_) => true,
        Command::Neighbours(_, _) => true,
    }
}

/// Whether a list may be loaded.
fn is_loadable<T: RTreeObject>(elements: &[T]) -> bool
    ensures { IsTrue result ↔ ((2 ≤ T.Envelope.Point.DIMENSIONS)
        × NoneEmpty T.Envelope.boxes.is_empty T.object.box_of elements.now) }
{
    <T::Envelope as Envelope>::Point::DIMENSIONS >= 2 && none_empty(elements)
}

/// Whether `replay` may run commands: each is fit.
pub fn all_fit<T: PointDistance + EqualEnvelopes>(commands: &[Command<T>]) -> bool
    ensures { IsTrue result ↔ AllByRecursion (IsFit ⟦<T as Scanned>⟧.questions T.Envelope.Point.DIMENSIONS) commands.now }
{
    for command in commands {
        if !is_fit(command) {
            return false;
        }
    }
    true
}
