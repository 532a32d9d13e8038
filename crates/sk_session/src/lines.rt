// What a session answers to a line.
ghost use Rattle.std.specs.Prelude.{◌≡◌, ◌⊎◌, ◌<◌, [], ◌∷◌, length, map, drop, not, if◌then◌else◌, true, None, Some, IfOk, OnErr};
ghost use Rattle.std.specs.List.{slice_index_or};
ghost use Rattle.sk_base.specs.SoundSketch.{IsSoundSketch};
ghost use Rattle.sk_lines.specs.Words.{bytes_of, StandInOrder};
ghost use Rattle.sk_lines.specs.declared.EntryError.TheVariants as an_error;
ghost use Rattle.sk_edits.specs.declared.Edit.TheVariants as an_edit;
ghost use Rattle.sk_entry.specs.Entry.{entry_code, IsEntryOf, StandsOn, IsNumbered};
ghost use Rattle.sk_entry.specs.Meaning.{added};
ghost use Rattle.sk_lines.specs.Comments.{words_under};
ghost use Rattle.sk_lines.specs.FirstCode.{first_code};
ghost use Rattle.sk_lines.specs.declared.Code.{Code as ACode};
ghost use Rattle.sk_lines.specs.declared.Version.TheVariants.{Two};
ghost use Rattle.sk_session.specs.declared.reply.Reply.TheVariants as a_reply;
ghost use Rattle.sk_edits.specs.Commands.{command_of};
ghost use Rattle.sk_session.specs.SessionCodes.{command_rows, is_spent};
ghost use Rattle.sk_edits.specs.Edits.{applied, next_element, next_constraint};
ghost use Rattle.sk_edits.specs.Making.{CanMake};
ghost use Rattle.sk_session.specs.Standing.{Gives};
ghost use Rattle.sk_session.specs.State.{sketch_in, TakesBack, IsHeldUp};
ghost use Rattle.sk_edits.specs.declared.Command.TheVariants as a_command;
ghost use Rattle.sk_lines.specs.EndLine.{is_none_left};
ghost use Rattle.sk_lines.specs.declared.Code.TheVariants.{E2, E3, E18, S3, S5};
ghost use Rattle.sk_session.specs.Replies.{Takes, Only, Checks, Plans, ByCode, Answers, Obeys, next_elem, next_con, IsHalted};

use crate::reply::Reply;
use crate::session::Session;
use sk_base::{ConId, Constraint, Elem, Element, NoMemory};
use sk_edits::{Change, Command, Edit, command_of, read_change};
use sk_entry::{Entry, read_entry};
use sk_lines::{Code, EntryError, Version, Word, word};

/// The most edits and undos that a session accepts.
const MOST_EDITS: u32 = 1_000_000;

impl Session {
    /// Accepts the edit, with this answer, unless the edits are spent.
    fn accept(&mut self, edit: Edit, answer: Reply) -> Result<Reply, NoMemory>
        requires can { CanMake edit (sketch_in self.old) }
        requires given { Gives edit self.old.edits }
        ensures ok { IfOk result (λ said. Takes (is_spent self.old) self.old edit answer said self.new) }
        ensures err { OnErr result (self.new ≡ self.old) }
    {
        if self.count() >= MOST_EDITS {
            return Ok(Reply::Refused(Code::S5));
        }
        self.make(edit)?;
        Ok(answer)
    }

    /// Declares the element that a line says.
    fn declare(&mut self, element: Element) -> Result<Reply, NoMemory>
        requires number { element.number.0 ≡ next_element self.old.edits }
        requires was_sound { IsSoundSketch (sketch_in self.old) }
        requires sound { IsSoundSketch (applied (an_edit.Element element) (sketch_in self.old)) }
        ensures ok { IfOk result (λ said. Takes (is_spent self.old) self.old (an_edit.Element element) (a_reply.Declared element.number) said self.new) }
        ensures err { OnErr result (self.new ≡ self.old) }
    {
        let number = element.number;
        self.accept(Edit::Element(element), Reply::Declared(number))
    }

    /// Adds the constraint that a line says.
    fn constrain(&mut self, constraint: Constraint) -> Result<Reply, NoMemory>
        requires number { constraint.number.0 ≡ next_constraint self.old.edits }
        requires was_sound { IsSoundSketch (sketch_in self.old) }
        requires sound { IsSoundSketch (applied (an_edit.Constraint constraint) (sketch_in self.old)) }
        ensures ok { IfOk result (λ said. Takes (is_spent self.old) self.old (an_edit.Constraint constraint) (a_reply.Constrained constraint.number) said self.new) }
        ensures err { OnErr result (self.new ≡ self.old) }
    {
        let number = constraint.number;
        self.accept(Edit::Constraint(constraint), Reply::Constrained(number))
    }

    /// Drops, sets or erases what a line says.
    fn alter(&mut self, change: Change, line: &[u8], words: &[Word]) -> Result<Reply, NoMemory>
        requires some { 0 < length words.now }
        requires order { StandInOrder 0 words.now (length line.now) }
        ensures ok { let rest = drop 1 (map (bytes_of line.now) words.now) in IfOk result (λ said.
            ByCode (first_code (command_rows self.old (Some (a_command.Change change)) rest)) self.old (Obeys self.old (Some (a_command.Change change)) rest said self.new) said self.new) }
        ensures err { OnErr result (self.new ≡ self.old) }
    {
        match read_change(self.sketch(), change, line, words) {
            Err(code) => Ok(Reply::Refused(code)),
            Ok(edit) => self.accept(edit, Reply::Done),
        }
    }

    /// Takes back the last edit.
    fn take_back(&mut self, alone: bool) -> Result<Reply, NoMemory>
        ensures ok { IfOk result (λ said. ByCode (first_code ((not alone, E3) ∷ (is_none_left self.old.edits, S3) ∷ (is_spent self.old, S5) ∷ [])) self.old ((said ≡ a_reply.Done) × TakesBack self.old self.new) said self.new) }
        ensures err { OnErr result (self.new ≡ self.old) }
    {
        if !alone {
            return Ok(Reply::Refused(Code::E3));
        }
        if self.has_no_edit() {
            return Ok(Reply::Refused(Code::S3));
        }
        if self.count() >= MOST_EDITS {
            return Ok(Reply::Refused(Code::S5));
        }
        self.undo()?;
        Ok(Reply::Done)
    }

    /// The code of a line that asks about the sketch.
    fn query_code(&self, alone: bool) -> Option<Code>
        ensures { result ≡ first_code ((not alone, E3) ∷ (is_none_left (sketch_in self.now).elements, E18) ∷ []) }
    {
        if !alone {
            Some(Code::E3)
        } else if self.sketch().elements.is_empty() {
            Some(Code::E18)
        } else {
            None
        }
    }

    fn answer_check(&mut self, alone: bool) -> Result<Reply, NoMemory>
        ensures ok { IfOk result (λ said. ByCode (first_code ((not alone, E3) ∷ (is_none_left (sketch_in self.old).elements, E18) ∷ [])) self.old (Checks self.old said self.new) said self.new) }
        ensures err { OnErr result ((self.new ≡ self.old) ⊎ ((alone ≡ true) × IsHeldUp self.old self.new)) }
    {
        match self.query_code(alone) {
            Some(code) => Ok(Reply::Refused(code)),
            None => self.check(),
        }
    }

    fn answer_plan(&self, alone: bool) -> Result<Reply, NoMemory>
        ensures { IfOk result (λ said. ByCode (first_code ((not alone, E3) ∷ (is_none_left (sketch_in self.now).elements, E18) ∷ [])) self.now (Plans self.now said) said self.now) }
    {
        match self.query_code(alone) {
            Some(code) => Ok(Reply::Refused(code)),
            None => self.plan(),
        }
    }

    fn answer_with(&self, alone: bool, answer: Reply) -> Reply
        ensures { ByCode (first_code ((not alone, E3) ∷ (is_none_left (sketch_in self.now).elements, E18) ∷ [])) self.now (Only self.now answer result self.now) result self.now }
    {
        match self.query_code(alone) {
            Some(code) => Reply::Refused(code),
            None => answer,
        }
    }

    /// Does what a command says.
    fn obey(&mut self, command: Command, line: &[u8], words: &[Word]) -> Result<Reply, NoMemory>
        requires some { 0 < length words.now }
        requires order { StandInOrder 0 words.now (length line.now) }
        ensures ok { let rest = drop 1 (map (bytes_of line.now) words.now) in IfOk result (λ said.
            ByCode (first_code (command_rows self.old (Some command) rest)) self.old (Obeys self.old (Some command) rest said self.new) said self.new) }
        ensures err { let rest = drop 1 (map (bytes_of line.now) words.now) in OnErr result (
            (self.new ≡ self.old) ⊎ ((rest ≡ []) × (command ≡ a_command.Check) × IsHeldUp self.old self.new)) }
    {
        let alone = is_alone(line, words);
        match command {
            Command::Change(change) => self.alter(change, line, words),
            Command::Undo => self.take_back(alone),
            Command::Check => self.answer_check(alone),
            Command::Plan => self.answer_plan(alone),
            Command::Solve => Ok(self.answer_with(alone, Reply::Solve)),
            Command::Write => Ok(self.answer_with(alone, Reply::Write)),
            Command::End => Ok(end(alone)),
        }
    }

    /// Does what a line says that is no entry.
    fn other(&mut self, line: &[u8], words: &[Word]) -> Result<Reply, NoMemory>
        requires some { 0 < length words.now }
        requires order { StandInOrder 0 words.now (length line.now) }
        ensures ok { let ws = map (bytes_of line.now) words.now in let command = command_of (slice_index_or ws 0 []) in IfOk result (λ said.
            ByCode (first_code (command_rows self.old command (drop 1 ws))) self.old (Obeys self.old command (drop 1 ws) said self.new) said self.new) }
        ensures solve { IfOk result (λ said. said ≡ a_reply.Solve → 0 < length (sketch_in self.new).elements) }
        ensures err { OnErr result (IsHalted self.old (map (bytes_of line.now) words.now) self.new) }
    {
        match command_of(word(line, words, 0)) {
            None => Ok(Reply::Refused(Code::E2)),
            Some(command) => self.obey(command, line, words),
        }
    }

    /// Does what a line without a code of its own says.
    fn enter(&mut self, line: &[u8], entry: Entry) -> Result<Reply, NoMemory>
        requires clean { entry_code Two (sketch_in self.old) line.now ≡ None }
        requires entry { IsEntryOf Two (sketch_in self.old) line.now (next_elem self.old) (next_con self.old) entry }
        requires stands_on { StandsOn Two line.now entry }
        requires numbered { IsNumbered (next_elem self.old) (next_con self.old) entry }
        requires was_sound { IsSoundSketch (sketch_in self.old) }
        requires sound { IsSoundSketch (added (sketch_in self.old) (Some entry)) }
        ensures ok { IfOk result (λ said. Answers self.old line.now said self.new) }
        ensures solve { IfOk result (λ said. said ≡ a_reply.Solve → 0 < length (sketch_in self.new).elements) }
        ensures err { OnErr result (IsHalted self.old (words_under Two line.now) self.new) }
    {
        match entry {
            Entry::Blank => Ok(Reply::Blank),
            Entry::Element(element) => self.declare(element),
            Entry::Constraint(constraint) => self.constrain(constraint),
            Entry::Other(words) => self.other(line, words.items.as_slice()),
        }
    }

    /// Does one command. The line is one of version 2, and comes without its line end.
    pub fn command(&mut self, line: &[u8]) -> Result<Reply, NoMemory>
        ensures answer { IfOk result (λ said. Answers self.old line.now said self.new) }
        ensures solve { IfOk result (λ said. said ≡ a_reply.Solve → 0 < length (sketch_in self.new).elements) }
        ensures err { OnErr result (IsHalted self.old (words_under Two line.now) self.new) }
    {
        let elem = Elem(self.next_elem());
        let con = ConId(self.next_con());
        match read_entry(self.alloc(), Version::Two, self.sketch(), line, elem, con) {
            Ok(entry) => self.enter(line, entry),
            Err(error) => refusal(error),
        }
    }
}

/// The answer to a line that isn't read.
fn refusal(error: EntryError) -> Result<Reply, NoMemory>
    ensures { IfOk result (λ said. (code : ACode) × (error ≡ an_error.Refused code) × (said ≡ a_reply.Refused code)) }
{
    match error {
        EntryError::Refused(code) => Ok(Reply::Refused(code)),
        EntryError::NoMemory => Err(NoMemory),
    }
}

/// The answer to `end`.
fn end(alone: bool) -> Reply
    ensures { result ≡ (if alone then a_reply.End else a_reply.Refused E3) }
{
    if alone {
        Reply::End
    } else {
        Reply::Refused(Code::E3)
    }
}

/// Whether the line has one word alone.
fn is_alone(line: &[u8], words: &[Word]) -> bool
    requires { 0 < length words.now }
    ensures { result ≡ is_none_left (drop 1 (map (bytes_of line.now) words.now)) }
{
    words.len() == 1
}
