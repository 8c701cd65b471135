//! The rules, and what a script says of a step.

ghost use Rattle.std.specs.Prelude.{◌≡◌, Some, None, IfSome, IfNone};
ghost use Rattle.geo_infer.specs.Words.{names_four, rule_word_of, text_of_rule};

use geo_sketch::Name;

/// A rule, for points P, Q, R, S and lines l, m, or for lines and points.
#[derive(Clone, Copy, PartialEq, Eq, Debug)]
pub enum Rule {
    /// Three points on a line are collinear.
    Span,
    /// Two collinear triples with two points in common.
    Extend,
    /// A point collinear with two points of a line lies on it.
    Lie,
    /// Two points on two lines are the same.
    Unique,
    /// The same point lies on the same line.
    Move,
}

/// A step as a script says it, by names. The fourth name stands exactly for rules other than
/// `Move`.
#[derive(Clone, Copy, Debug)]
pub struct SaidStep {
    pub rule: Rule,
    pub a: Name,
    pub b: Name,
    pub c: Name,
    pub d: Option<Name>,
}

const RULES: [Rule; 5] = [
    Rule::Span,
    Rule::Extend,
    Rule::Lie,
    Rule::Unique,
    Rule::Move,
];

impl Rule {
    /// Reads the word of a rule; None where the bytes are none.
    #[tactic(auto, unfolding(crate::specs::Words::rule_word_of))]
    pub(crate) fn read(word: &[u8]) -> Option<Rule>
        ensures { result ≡ rule_word_of word.now }
    {
        RULES.iter().copied().find(|rule| word == rule.text())
    }

    fn text(self) -> &'static [u8]
        ensures { result.now ≡ text_of_rule self }
    {
        match self {
            Rule::Span => b"span",
            Rule::Extend => b"extend",
            Rule::Lie => b"lie",
            Rule::Unique => b"unique",
            Rule::Move => b"move",
        }
    }

    /// Whether four names are said, and not three.
    pub(crate) fn names_four(self) -> bool
        ensures { result ≡ names_four self }
    {
        !matches!(self, Rule::Move)
    }
}
