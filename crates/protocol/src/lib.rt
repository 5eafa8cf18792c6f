//! The protocol: what each call answers and leaves, as definitions, and the small rules of the commands.
#![tactic(auto)]

ghost use Rattle.std.specs.Prelude.{◌≡◌};
ghost use Rattle.committee.specs.Meaning.{members_value};
ghost use Rattle.protocol.specs.Execution.{key_allowed};

use committee::{Member, is_member_key};
use format::Key;

/// Whether a chain may have this key as its owner's: it is not 0, and no member's.
pub fn is_owner_key(members: &[Member], key: Key) -> bool
    ensures { result ≡ key_allowed (members_value members.now) key.0 }
{
    key != Key(0) && !is_member_key(members, key)
}
