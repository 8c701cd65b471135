//! The words that begin a command, and those that begin a statement.

ghost use Rattle.std.specs.Prelude.{◌≡◌};
ghost use Rattle.geo_parse.specs.CommandWords.{text_of_command, command_word_of, text_of_statement, statement_word_of};

/// The first word of a command.
#[derive(Clone, Copy, Debug)]
pub enum CommandWord {
    Point,
    Line,
    FixPoint,
    FixLine,
    On,
    Through,
    Along,
    Pencil,
    Join,
    Meet,
    Drag,
    Drop,
    Claim,
    Certify,
    Dual,
    Undo,
    Redo,
    Screen,
    Conjectures,
    Ledger,
    Svg,
    Show,
    Close,
}

/// The first word of a statement.
#[derive(Clone, Copy, Debug)]
pub enum StatementWord {
    Null,
    Same,
    On,
    Collinear,
    Concurrent,
}

const COMMAND_WORDS: [CommandWord; 23] = [
    CommandWord::Point,
    CommandWord::Line,
    CommandWord::FixPoint,
    CommandWord::FixLine,
    CommandWord::On,
    CommandWord::Through,
    CommandWord::Along,
    CommandWord::Pencil,
    CommandWord::Join,
    CommandWord::Meet,
    CommandWord::Drag,
    CommandWord::Drop,
    CommandWord::Claim,
    CommandWord::Certify,
    CommandWord::Dual,
    CommandWord::Undo,
    CommandWord::Redo,
    CommandWord::Screen,
    CommandWord::Conjectures,
    CommandWord::Ledger,
    CommandWord::Svg,
    CommandWord::Show,
    CommandWord::Close,
];

const STATEMENT_WORDS: [StatementWord; 5] = [
    StatementWord::Null,
    StatementWord::Same,
    StatementWord::On,
    StatementWord::Collinear,
    StatementWord::Concurrent,
];

impl CommandWord {
    /// Reads a command word; None where the bytes are none.
    #[tactic(auto, unfolding(crate::specs::CommandWords::command_word_of))]
    pub fn read(word: &[u8]) -> Option<CommandWord>
        ensures { result ≡ command_word_of word.now }
    {
        COMMAND_WORDS
            .iter()
            .copied()
            .find(|command_word| word == command_word.text())
    }

    pub fn text(self) -> &'static [u8]
        ensures { result.now ≡ text_of_command self }
    {
        match self {
            CommandWord::Point => b"point",
            CommandWord::Line => b"line",
            CommandWord::FixPoint => b"fixpoint",
            CommandWord::FixLine => b"fixline",
            CommandWord::On => b"on",
            CommandWord::Through => b"through",
            CommandWord::Along => b"along",
            CommandWord::Pencil => b"pencil",
            CommandWord::Join => b"join",
            CommandWord::Meet => b"meet",
            CommandWord::Drag => b"drag",
            CommandWord::Drop => b"drop",
            CommandWord::Claim => b"claim",
            CommandWord::Certify => b"certify",
            CommandWord::Dual => b"dual",
            CommandWord::Undo => b"undo",
            CommandWord::Redo => b"redo",
            CommandWord::Screen => b"screen",
            CommandWord::Conjectures => b"conjectures",
            CommandWord::Ledger => b"ledger",
            CommandWord::Svg => b"svg",
            CommandWord::Show => b"show",
            CommandWord::Close => b"close",
        }
    }
}

impl StatementWord {
    /// Reads a statement word; None where the bytes are none.
    #[tactic(auto, unfolding(crate::specs::CommandWords::statement_word_of))]
    pub fn read(word: &[u8]) -> Option<StatementWord>
        ensures { result ≡ statement_word_of word.now }
    {
        STATEMENT_WORDS
            .iter()
            .copied()
            .find(|statement_word| word == statement_word.text())
    }

    pub fn text(self) -> &'static [u8]
        ensures { result.now ≡ text_of_statement self }
    {
        match self {
            StatementWord::Null => b"null",
            StatementWord::Same => b"same",
            StatementWord::On => b"on",
            StatementWord::Collinear => b"collinear",
            StatementWord::Concurrent => b"concurrent",
        }
    }
}
