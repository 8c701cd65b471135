//! What the grammar's definitions say of one another.

ghost use Rattle.std.specs.Prelude.{◌≡◌, ℕ, List};
ghost use Rattle.geo_parse.specs.declared.commands.Command.{Command};
ghost use Rattle.geo_parse.specs.Grammar.{IsSpelling};

/// The law that a line spells at most one command.
pub fn spells_one_command()
    ensures { (line : List ℕ) → (c d : Command) → IsSpelling line c → IsSpelling line d → c ≡ d }
{}
