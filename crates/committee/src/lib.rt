//! The committee: its rules, its quorum, and the weight of members by their numbers.
#![tactic(auto)]

ghost use Rattle.std.specs.Prelude.{◌≡◌, ◌*◌, ◌≤◌, not, ◌&&◌, length};
ghost use Rattle.committee.specs.Meaning.{member_value, members_value};
ghost use Rattle.committee.specs.Rules.{committee_allowed, has_key, max_members, member_allowed};
ghost use Rattle.committee.specs.Weights.{QuorumsOverlap, faulty_of, quorum_of, total_weight, weight_of};

use format::Key;

/// The most members of a committee.
pub const MAX_MEMBERS: usize = 16;
/// The largest weight of a member.
pub const MAX_WEIGHT: u16 = 10_000;

/// A member by its key and its weight. Its number is its place in the committee.
#[derive(Clone, Copy, PartialEq, Eq, Debug)]
pub struct Member {
    pub key: Key,
    pub weight: u16,
}

/// Whether a member has this key.
pub fn is_member_key(members: &[Member], key: Key) -> bool
    ensures { result ≡ has_key (members_value members.now) key.0 }
{
    members.iter().any(|member| member.key == key)
}

// Whether a member keeps the rules, and no later one has its key.
fn is_allowed(member: Member, later: &[Member]) -> bool
    ensures { result ≡ (member_allowed (member_value member) && not (has_key (members_value later.now) member.key.0)) }
{
    member.key != Key(0)
        && (1..=MAX_WEIGHT).contains(&member.weight)
        && !is_member_key(later, member.key)
}

/// Whether the committee keeps its rules: 1 to 16 members, with keys that are not 0 and all different, and weights from 1 to
/// 10,000.
pub fn is_committee(members: &[Member]) -> bool
    ensures { result ≡ committee_allowed (members_value members.now) }
{
    if members.is_empty() || members.len() > MAX_MEMBERS {
        return false;
    }
    let mut rest = members;
    while let [member, later @ ..] = rest {
        if !is_allowed(*member, later) {
            return false;
        }
        rest = later;
    }
    true
}

// The sum of the weights.
fn total(members: &[Member]) -> u32
    requires { length members.now ≤ max_members }
    ensures { result ≡ total_weight (members_value members.now) }
{
    members.iter().map(|member| u32::from(member.weight)).sum()
}

/// The weight that dishonest members may have together: f = (N - 1) / 3, rounded down, where N is the sum of the weights.
/// None where the committee is outside its rules.
pub fn faulty(members: &[Member]) -> Option<u32>
    ensures { result ≡ faulty_of (members_value members.now) }
{
    if !is_committee(members) {
        return None;
    }
    let others = total(members).saturating_sub(1);
    Some(others / 3)
}

/// The weight that a certificate needs: N - f, where N is the sum of the weights and f is (N - 1) / 3, rounded down. None
/// where the committee is outside its rules.
pub fn quorum(members: &[Member]) -> Option<u32>
    ensures value { result ≡ quorum_of (members_value members.now) }
    ensures overlap { QuorumsOverlap }
{
    if !is_committee(members) {
        return None;
    }
    let total = total(members);
    Some(total - total.saturating_sub(1) / 3)
}

/// The weight of members by their numbers. None where a number is outside the committee or not above the one before.
pub fn weigh(members: &[Member], numbers: &[u8]) -> Option<u32>
    ensures { result ≡ weight_of (members_value members.now) numbers.now }
{
    let mut sum: u32 = 0;
    let mut least = 0usize;
    for number in numbers {
        let number = usize::from(*number);
        if number < least || number >= members.len() {
            return None;
        }
        sum += u32::from(members[number].weight);
        least = number + 1;
    }
    Some(sum)
}
