//! The commands of the script language.

use geo_sketch::{Kind, Name, Said, Setting, Spec};

/// What a line of a script asks for.
#[derive(Clone, Copy, Debug)]
pub enum Command {
    /// Adds an element: its name, its kind and how it is defined.
    Add(Name, Kind, Spec),
    /// Sets the values of an element.
    Drag(Name, Setting),
    /// Removes an element.
    Drop(Name),
    /// Adds a claim.
    Claim(Said),
    /// Exchanges points and lines.
    Dual,
    /// Takes the last change back.
    Undo,
    /// Makes the change again that was taken back last.
    Redo,
    /// Writes the state of each element.
    Screen,
    /// Writes the statements that seem to hold.
    Conjectures,
    /// Writes conjectures and claims with their verdicts.
    Ledger,
    /// Writes a certificate of a statement.
    Certify(Said),
    /// Writes a picture.
    Svg,
    /// Writes what the view of this number renders.
    Show(i64),
    /// Closes the view of this number.
    Close(i64),
}
