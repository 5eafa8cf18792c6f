//! Proposing a block: the vote of this member.
ghost use Rattle.std.specs.Prelude.{◌≡◌, ◌+◌, ◌^◌, ◌<◌, ◌||◌, [], length};
ghost use Rattle.std.specs.Option.{option_map};
ghost use Rattle.format.specs.Meaning.{digest_value, identifier_value};
ghost use Rattle.books.specs.Lists.{any};
ghost use Rattle.books.specs.Books.{puts};
ghost use Rattle.books.specs.Meaning.{record_value};
ghost use Rattle.format.specs.Outcomes.{Passed};
ghost use Rattle.format.specs.Values.{BlockValue};
ghost use Rattle.reading.specs.Blocks.{block_in, block_of};
ghost use Rattle.faults.specs.Refusals.{call_answer};
ghost use Rattle.committee.specs.Meaning.{members_value};
ghost use Rattle.protocol.specs.Reads.{scheme};
ghost use Rattle.reading.specs.Frames.{request_value};
ghost use Rattle.reading.specs.Parts.{head_value};
ghost use Rattle.protocol.specs.Calls.{Ends, chain_in, considered, in_turn, owned, propose as spec_propose, votes_at_most};
ghost use Rattle.blocks.specs.Drafts.{draft_value};
ghost use Rattle.blocks.specs.Proposing.{FoundAt, ballot_answer, chain_answer, check_answer, request_proposed};

use crate::draft::{Draft, some_put};
use crate::opening::{Opened, open_block};
use crate::running::run_block;
use applications::Application;
use books::{Books, Record};
use committee::{Member, is_committee};
use faults::CallFault;
use format::{Digest, Identifier, Key};
use reading::{Head, Request, read_request};
use seals::Seals;

// The record of a chain that has an owner.
fn owned_record<B: Books>(books: &B, chain: &Identifier) -> Result<Record, CallFault>
    ensures value { chain_answer result ≡ owned (chain_in ((B.Books.meaning books.now).rows.record_at (identifier_value chain.now))) }
    ensures there { FoundAt (B.Books.meaning books.now).rows (identifier_value chain.now) result }
{
    books
        .record(chain)
        .filter(|row| row.owner != Key(0))
        .ok_or(CallFault::NoOwner)
}

// Whether a block with this head stands at the next height of its chain, on the last digest.
fn check_turn(row: &Record, head: &Head) -> Result<(), CallFault>
    ensures { check_answer result ≡ in_turn (record_value row.now).chain (block_of (head_value head.now) []) }
{
    if head.height > row.next {
        return Err(CallFault::HeightAbove);
    }
    if head.height < row.next {
        return Err(CallFault::HeightBelow);
    }
    if head.previous != row.last {
        return Err(CallFault::Previous);
    }
    Ok(())
}

// Whether no other digest is voted.
fn may_vote(vote: Option<Digest>, digest: &Digest) -> bool
    ensures { result ≡ votes_at_most (digest_value digest.now) (option_map digest_value vote) }
{
    vote.is_none_or(|voted| voted == *digest)
}

// Whether minus marks of the chain remain after the block.
#[tactic(auto, using(crate::proofs::Drafts::any_put))]
fn is_owing<B: Books>(books: &B, chain: &Identifier, draft: &Draft) -> bool
    ensures { result ≡ ((B.Books.meaning books.now).owing (identifier_value chain.now) || any puts (draft_value draft.now).operations) }
{
    books.has_minus(chain) || some_put(&draft.changes)
}

// The record of the chain on which the request's block is voted for. The books are not changed.
fn consider<A: Application, B: Books, S: Seals>(
    books: &B,
    seals: &S,
    members: &[Member],
    opened: &Opened,
    seal: &[u8],
) -> Result<Record, CallFault>
    ensures value { (b : BlockValue) → block_in opened.now.block.bytes.now ≡ Passed b → ballot_answer (digest_value opened.now.digest) result ≡ considered (members_value members.now) A.Application.meaning (scheme S.Seals.width (S.Seals.holds seals.now)) (B.Books.meaning books.now) b seal.now }
    ensures there { FoundAt (B.Books.meaning books.now).rows (identifier_value opened.now.head.chain) result }
{
    let row = owned_record(books, &opened.head.chain)?;
    if !seals.verify(row.owner, &opened.digest, seal) {
        return Err(CallFault::OwnerSeal);
    }
    check_turn(&row, &opened.head)?;
    if !may_vote(row.vote, &opened.digest) {
        return Err(CallFault::Voted);
    }
    let draft = run_block::<A, B>(books, members, opened, &row)?;
    if is_owing(books, &opened.head.chain, &draft) {
        return Err(CallFault::MinusMarks);
    }
    Ok(row)
}

// Votes for the block of a request that was read, where it is accepted.
fn vote<A: Application, B: Books, S: Seals>(
    books: &mut B,
    seals: &S,
    members: &[Member],
    opened: &Opened,
    seal: &[u8],
) -> Result<Digest, CallFault>
    ensures change { (b : BlockValue) → block_in opened.now.block.bytes.now ≡ Passed b → Ends (considered (members_value members.now) A.Application.meaning (scheme S.Seals.width (S.Seals.holds seals.now)) (B.Books.meaning books.old) b seal.now) (B.Books.meaning books.old) (call_answer result) (B.Books.meaning books.new) }
    ensures rest { B.Books.outside books.new ≡ B.Books.outside books.old }
{
    let row = consider::<A, B, S>(books, seals, members, opened, seal)?;
    let _ = books.put_record(Record {
        vote: Some(opened.digest),
        ..row
    });
    Ok(opened.digest)
}

// Reads the block of a request, and votes for it.
fn propose_request<A: Application, B: Books, S: Seals>(
    books: &mut B,
    seals: &S,
    members: &[Member],
    request: Request,
) -> Result<Digest, CallFault>
    requires { request.block.at + length request.block.bytes.now < 2 ^ 64 }
    ensures change { Ends (request_proposed (members_value members.now) A.Application.meaning (scheme S.Seals.width (S.Seals.holds seals.now)) (B.Books.meaning books.old) (request_value request.entry)) (B.Books.meaning books.old) (call_answer result) (B.Books.meaning books.new) }
    ensures rest { B.Books.outside books.new ≡ B.Books.outside books.old }
{
    let opened = open_block(request.block)?;
    vote::<A, B, S>(books, seals, members, &opened, request.seal.bytes)
}

/// Runs the block of a request on a copy and, where it is accepted, sets this member's vote. Nothing else changes. It answers
/// the block's digest. Refusals: 21 for the committee, 1 to 3 for the frame and its block in it, 7 for no
/// record or no owner, 8 for the owner's seal, 9 to 11 for its height and previous digest, 12 where another digest is voted,
/// 13 to 17 for a command, 18 where minus marks of the chain would remain.
// The books change, and the seals and members do not, so they are not one struct.
pub fn propose<A: Application, B: Books, S: Seals>(
    books: &mut B,
    seals: &S,
    members: &[Member],
    frame: &[u8],
) -> Result<Digest, CallFault>
    ensures change { Ends (spec_propose (members_value members.now) A.Application.meaning (scheme S.Seals.width (S.Seals.holds seals.now)) (B.Books.meaning books.old) frame.now) (B.Books.meaning books.old) (call_answer result) (B.Books.meaning books.new) }
    ensures rest { B.Books.outside books.new ≡ B.Books.outside books.old }
{
    if !is_committee(members) {
        return Err(CallFault::Committee);
    }
    let request = read_request::<S>(frame)?;
    propose_request::<A, B, S>(books, seals, members, request)
}
