//! What a reader of lines may leave out of a long one.

ghost use Rattle.std.specs.Prelude.{◌≡◌, ◌+◌, ℕ, List, take, map};
ghost use Rattle.geo_parse.specs.Reading.{read_of};
ghost use Rattle.geo_view.specs.declared.shown.ViewKind.{ViewKind};
ghost use Rattle.geo_script.specs.Places.{beginning, printed_at, refuses_at};
ghost use Rattle.geo_parse.specs.declared.limits.TheConstants.{LINE_LIMIT};

use geo_tool::cut_lines_expand_alike;

/// The first 201 bytes of a line read as the whole line does, since it is refused as too long
/// where it has more than 200. So what is answered to a script, in which tools may be used,
/// needs no more of its lines.
pub fn long_lines_are_answered_alike()
    ensures read { (line : List ℕ) → read_of (take (LINE_LIMIT + 1) line) ≡ read_of line }
    ensures printed { (kinds : List ViewKind) (lines : List (List ℕ)) → printed_at (beginning kinds) (map (take (LINE_LIMIT + 1)) lines) ≡ printed_at (beginning kinds) lines }
    ensures refused { (kinds : List ViewKind) (lines : List (List ℕ)) → refuses_at (beginning kinds) (map (take (LINE_LIMIT + 1)) lines) ≡ refuses_at (beginning kinds) lines }
{
    cut_lines_expand_alike();
}
