//! What honest members can rely on.
//!
//! The definitions of `specs/` speak of the calls as `protocol` defines them. `MembersAgree` is the promise over every list
//! of calls; docs/PROMISES.md explains it.
#![tactic(auto)]

ghost use Rattle.std.specs.Prelude.{◌≡◌, pos, None};
ghost use Rattle.applications.specs.Meaning.{step_value};
ghost use Rattle.applications.specs.Steps.{Gives};
ghost use Rattle.committee.specs.Meaning.{members_value};
ghost use Rattle.committee.specs.Weights.{faulty_of};
ghost use Rattle.agreement.specs.Agreement.{MembersAgree, VotesAreOne};
ghost use Rattle.agreement.specs.Instance.{AcceptingRun};
ghost use Rattle.agreement.specs.Worked.{WorkedValues};

use applications::{Application, ApplicationFault, RingOperation, RingRegister, Step};
use committee::{Member, faulty};

/// The weight that dishonest members may have together, or none where the committee is outside its rules. While they have no
/// more, the honest members agree, whatever calls come and whatever frames they carry; and there are runs in which they
/// accept blocks.
pub fn tolerated_weight(members: &[Member]) -> Option<u32>
    ensures value { result ≡ faulty_of (members_value members.now) }
    ensures agreement { MembersAgree }
    ensures votes { VotesAreOne }
    ensures instance { AcceptingRun }
{
    faulty(members)
}

/// The ring register's step for a ring as far left as is allowed. It stands for all worked values that the definitions have.
pub fn worked_values() -> Result<Step, ApplicationFault>
    ensures farthest { step_value result ≡ Gives (pos 1) (pos 1) None }
    ensures values { WorkedValues }
{
    RingRegister::operate(0, 0, RingOperation::RecordOnly.into(), -500)
}
