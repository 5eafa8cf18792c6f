//! Delivering an outgoing row to its target.
ghost use Rattle.std.specs.Prelude.{◌≡◌, true, false, ◌&&◌, [], ◌∷◌, IfSome, if◌then◌else◌, Some, None};
ghost use Rattle.std.specs.Option.{option_map};
ghost use Rattle.format.specs.Meaning.{identifier_value, message_value, name_value};
ghost use Rattle.books.specs.Books.{Changed, goes, needed, put_mark, put_record, remove_mark};
ghost use Rattle.books.specs.Meaning.{load_value, outgoing_key, outgoing_value, record_key, record_value};
ghost use Rattle.books.specs.Values.{marking, minus, plus};
ghost use Rattle.calls.specs.Arrivals.{load_marks};
ghost use Rattle.protocol.specs.Calls.{Ends, arrival, deliver as spec_deliver, made, message_of, new_record, record_or_new, unopened, with_owner};
ghost use Rattle.faults.specs.Refusals.{call_answer};

use crate::records::new_record;
use applications::Application;
use books::{Books, Load, Mark, NewRows, Outgoing, Record};
use faults::CallFault;
use format::{Digest, Height, Identifier, Key, Message, Name};

// Whether the chain has no owner and no block.
fn is_unopened(row: &Record) -> bool
    ensures { result ≡ unopened (record_value row.now) }
{
    row.owner == Key(0) && row.next == Height(0)
}

// Sets the owner of a chain whose record is there, where it has none and no block.
fn open<B: Books>(books: &mut B, row: Record, key: Key)
    requires { (B.Books.meaning books.old).rows.record_at (record_key row) ≡ Some (record_value row) }
    ensures change { Changed (B.Books.meaning books.old) (if unopened (record_value row) then put_record (record_key row) (with_owner key.0 (record_value row)) ∷ [] else []) (B.Books.meaning books.new) }
    ensures rest { B.Books.outside books.new ≡ B.Books.outside books.old }
{
    if is_unopened(&row) {
        let _ = books.put_record(Record { owner: key, ..row });
    }
}

// Removes the minus mark of a message that was received, or else puts its plus mark.
fn settle<B: Books>(books: &mut B, target: Identifier, message: Message)
    requires { (B.Books.meaning books.old).rows.marked (marking (identifier_value target) (message_value message) minus) ≡ false → goes (B.Books.meaning books.old) (put_mark (marking (identifier_value target) (message_value message) plus)) ≡ true }
    ensures change { Changed (B.Books.meaning books.old) (if (B.Books.meaning books.old).rows.marked (marking (identifier_value target) (message_value message) minus) then remove_mark (marking (identifier_value target) (message_value message) minus) ∷ [] else put_mark (marking (identifier_value target) (message_value message) plus) ∷ []) (B.Books.meaning books.new) }
    ensures rest { B.Books.outside books.new ≡ B.Books.outside books.old }
{
    let minus = Mark::minus(target, message);
    if books.has_mark(&minus) {
        books.remove_mark(&minus);
    } else {
        let _ = books.put_mark(Mark::plus(target, message));
    }
}

// The record of the target: the one that was found, or else a new one with no owner, which is put.
fn make_target<A: Application, B: Books>(
    books: &mut B,
    target: Identifier,
    found: Option<Record>,
) -> Record
    requires value { option_map record_value found ≡ (B.Books.meaning books.old).rows.record_at (identifier_value target) }
    requires key { IfSome found (λ x. record_key x ≡ identifier_value target) }
    requires place { (B.Books.meaning books.old).rows.record_at (identifier_value target) ≡ None → goes (B.Books.meaning books.old) (put_record (identifier_value target) (new_record A.Application.meaning 0)) ≡ true }
    ensures value { record_value result ≡ record_or_new A.Application.meaning ((B.Books.meaning books.old).rows.record_at (identifier_value target)) }
    ensures key { record_key result ≡ identifier_value target }
    ensures change { Changed (B.Books.meaning books.old) (made A.Application.meaning (identifier_value target) ((B.Books.meaning books.old).rows.record_at (identifier_value target))) (B.Books.meaning books.new) }
    ensures rest { B.Books.outside books.new ≡ B.Books.outside books.old }
{
    match found {
        Some(row) => row,
        None => {
            let row = new_record::<A>(target, Key(0));
            let _ = books.put_record(row);
            row
        }
    }
}

fn message_of(row: &Outgoing, code: u8, value: i64) -> Message
    ensures { message_value result ≡ message_of (outgoing_key row.now) code value }
{
    Message {
        name: row.name,
        code,
        value,
    }
}

// How many new marks an outgoing row needs at its target.
fn new_marks<B: Books>(books: &B, row: &Outgoing) -> usize
    ensures { result ≡ load_marks (B.Books.meaning books.now).rows (outgoing_key row.now) (identifier_value row.now.target) (load_value row.now.load) }
{
    let Load::Sent { code, value } = row.load else {
        return 0;
    };
    let message = message_of(row, code, value);
    usize::from(
        !books.has_mark(&Mark::minus(row.target, message))
            && !books.has_mark(&Mark::plus(row.target, message)),
    )
}

// What an outgoing row does at its target, whose record is the one found.
fn arrive<A: Application, B: Books>(books: &mut B, row: &Outgoing, found: Option<Record>)
    requires value { option_map record_value found ≡ (B.Books.meaning books.old).rows.record_at (identifier_value row.now.target) }
    requires key { IfSome found (λ x. record_key x ≡ identifier_value row.now.target) }
    requires place { (B.Books.meaning books.old).fits (identifier_value row.now.target) (needed (B.Books.meaning books.old).rows (arrival A.Application.meaning (B.Books.meaning books.old).rows (outgoing_key row.now) (outgoing_value row.now))) ≡ true }
    ensures change { Changed (B.Books.meaning books.old) (arrival A.Application.meaning (B.Books.meaning books.old).rows (outgoing_key row.now) (outgoing_value row.now)) (B.Books.meaning books.new) }
    ensures rest { B.Books.outside books.new ≡ B.Books.outside books.old }
{
    let target = make_target::<A, B>(books, row.target, found);
    match row.load {
        Load::Opening { key } => open(books, target, key),
        Load::Sent { code, value } => settle(books, row.target, message_of(row, code, value)),
    }
}

/// Delivers the outgoing row of a name to its target. An opening sets the owner of a chain that has none and no block; a
/// message removes its minus mark, or else puts a plus mark. The target's record is made where it is missing, and the row is
/// then removed. Refusals: 20 where there is no such row, 19 where the new record and mark do not fit.
pub fn deliver<A: Application, B: Books>(books: &mut B, name: &Name) -> Result<Digest, CallFault>
    ensures change { Ends (spec_deliver A.Application.meaning (B.Books.meaning books.old) (name_value name.now)) (B.Books.meaning books.old) (call_answer result) (B.Books.meaning books.new) }
    ensures rest { B.Books.outside books.new ≡ B.Books.outside books.old }
{
    let Some(row) = books.outgoing(name) else {
        return Err(CallFault::NoOutgoing);
    };
    let found = books.record(&row.target);
    let new = NewRows {
        records: usize::from(found.is_none()),
        marks: new_marks(books, &row),
        ..NewRows::NONE
    };
    if !books.fits(&row.target, new) {
        return Err(CallFault::NoPlace);
    }
    arrive::<A, B>(books, &row, found);
    books.remove_outgoing(name);
    Ok(Digest::ZERO)
}
