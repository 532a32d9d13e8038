ghost use Rattle.std.specs.Prelude.{◌≡◌};
ghost use Rattle.sk_edits.specs.Commands.{command_of};

use sk_lines::is_word;

/// What a line asks of a session that neither declares an element nor adds a constraint.
#[derive(Clone, Copy, Debug, PartialEq, Eq)]
pub enum Command {
    Change(Change),
    Undo,
    Check,
    Plan,
    Solve,
    Write,
    End,
}

/// A change of what stands.
#[derive(Clone, Copy, Debug, PartialEq, Eq)]
pub enum Change {
    Drop,
    Set,
    Erase,
}

/// The command that a word is.
pub fn command_of(word: &[u8]) -> Option<Command>
    ensures { result ≡ command_of word.now }
{
    if is_word(word, "drop") {
        Some(Command::Change(Change::Drop))
    } else if is_word(word, "set") {
        Some(Command::Change(Change::Set))
    } else if is_word(word, "erase") {
        Some(Command::Change(Change::Erase))
    } else if is_word(word, "undo") {
        Some(Command::Undo)
    } else if is_word(word, "check") {
        Some(Command::Check)
    } else if is_word(word, "plan") {
        Some(Command::Plan)
    } else if is_word(word, "solve") {
        Some(Command::Solve)
    } else if is_word(word, "write") {
        Some(Command::Write)
    } else if is_word(word, "end") {
        Some(Command::End)
    } else {
        None
    }
}
