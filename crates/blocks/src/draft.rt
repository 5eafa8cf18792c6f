//! What the commands of a block have done so far. The books are not changed.
ghost use Rattle.std.specs.Prelude.{◌≡◌, ◌+◌, ◌<◌, ◌≤◌, [], ◌∷◌, option_to_list};
ghost use Rattle.std.specs.List.{list_any};
ghost use Rattle.std.specs.Option.{option_map};
ghost use Rattle.arrayvec.specs.ArrayVec.{array_vec_len};
ghost use Rattle.format.specs.Layout.{max_commands};
ghost use Rattle.format.specs.Meaning.{command_value, identifier_value};
ghost use Rattle.books.specs.Books.{puts};
ghost use Rattle.books.specs.Meaning.{entry_value, mark_value, record_value};
ghost use Rattle.protocol.specs.Calls.{receipts};
ghost use Rattle.protocol.specs.Execution.{received};
ghost use Rattle.blocks.specs.Drafts.{Within, beginning, change_value, changes_value, draft_value, ran_value, shown, shown_after, with_command};
ghost use Rattle.blocks.specs.Running.{marks_after};

use arrayvec::ArrayVec;
use books::{Books, Mark, Outgoing, Record};
use format::layout::MAX_COMMANDS;
use format::{Command, Identifier, Key};

/// A change of a mark.
#[derive(Clone, Copy, PartialEq, Eq, Debug)]
pub enum Change {
    Put(Mark),
    Removed(Mark),
}

impl Change {
    fn puts(&self) -> bool
        ensures { result ≡ puts (change_value self.now) }
    {
        matches!(self, Change::Put(_))
    }

    // Whether a mark is there after the change, where it was there before it or not.
    fn shows(&self, mark: &Mark, before: bool) -> bool
        ensures { result ≡ shown_after (mark_value mark.now) before (change_value self.now) }
    {
        match self {
            Change::Put(put) => before || put == mark,
            Change::Removed(removed) => before && removed != mark,
        }
    }
}

impl Default for Change {
    fn default() -> Change {
        Change::Removed(Mark::blank())
    }
}

/// What commands change in their chain.
#[derive(Clone, Copy, PartialEq, Eq, Debug)]
pub struct State {
    pub owner: Key,
    pub a: i64,
    pub b: i64,
}

/// A command that ran: the chain after it, and the row that it sends.
#[derive(Clone, Copy, PartialEq, Eq, Debug)]
pub struct Ran {
    pub state: State,
    pub sent: Option<Outgoing>,
}

/// The chain after the commands so far, whether the last one is a Close and one an Open, the changes of marks, and the
/// rows sent.
// Two flags and no enum: the checks ask for each by itself.
#[derive(Drop)]
pub struct Draft {
    pub state: State,
    pub closed: bool,
    pub opened: bool,
    pub changes: ArrayVec<Change, MAX_COMMANDS>,
    pub sent: ArrayVec<Outgoing, MAX_COMMANDS>,
}

// Whether a mark is there after changes, where it was before them or not.
fn shows(changes: &[Change], mark: &Mark, before: bool) -> bool
    ensures { result ≡ shown before (changes_value changes.now) (mark_value mark.now) }
{
    changes
        .iter()
        .fold(before, |there, change| change.shows(mark, there))
}

// Whether some mark is put.
pub(crate) fn some_put(changes: &[Change]) -> bool
    ensures { result ≡ list_any (λ c. puts (change_value c)) changes.now }
{
    changes.iter().any(|change| change.puts())
}

impl Draft {
    // Before the first command.
    pub(crate) fn new(row: &Record) -> Draft
        ensures value { draft_value result ≡ beginning (record_value row.now).chain }
        ensures within { Within result 0 }
    {
        Draft {
            state: State {
                owner: row.owner,
                a: row.a,
                b: row.b,
            },
            closed: false,
            opened: false,
            changes: ArrayVec::new(),
            sent: ArrayVec::new(),
        }
    }

    // One command more, which ran, with the mark that it puts or removes.
    pub(crate) fn add(&mut self, command: &Command, ran: Ran, change: Option<Change>)
        requires changes { array_vec_len self.old.changes < max_commands }
        requires sent { array_vec_len self.old.sent < max_commands }
        ensures value { draft_value self.new ≡ with_command (draft_value self.old) (command_value command.now) (ran_value ran) (option_to_list (option_map change_value change)) }
        ensures changes { array_vec_len self.new.changes ≤ array_vec_len self.old.changes + 1 }
        ensures sent { array_vec_len self.new.sent ≤ array_vec_len self.old.sent + 1 }
    {
        self.state = ran.state;
        self.closed = matches!(command, Command::Close);
        self.opened = self.opened || matches!(command, Command::Open { .. });
        if let Some(change) = change {
            self.changes.push(change);
        }
        if let Some(row) = ran.sent {
            self.sent.push(row);
        }
    }

    // The change by a command that receives a message: its plus mark is removed, or else its minus mark is put.
    pub(crate) fn receipt<B: Books>(
        &self,
        books: &B,
        chain: Identifier,
        command: &Command,
    ) -> Option<Change>
        ensures { option_to_list (option_map change_value result) ≡ receipts (identifier_value chain) (marks_after (B.Books.meaning books.now).rows.marked (draft_value self.now).operations) (received (command_value command.now ∷ [])) }
    {
        let Command::Receive { message } = *command else {
            return None;
        };
        let plus = Mark::plus(chain, message);
        if shows(&self.changes, &plus, books.has_mark(&plus)) {
            Some(Change::Removed(plus))
        } else {
            Some(Change::Put(Mark::minus(chain, message)))
        }
    }
}
