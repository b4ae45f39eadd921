// The group send under C names, in both forms. It takes what document 02 lends it, and answers number and word.
#![tactic(auto, using(crate::proofs::Forwards::forwards_group))]

ghost use Rattle.std.specs.Prelude.{◌≡◌};
ghost use Rattle.group.specs.Pairs.{in_bytes, in_records};
ghost use Rattle.group.specs.Groups.{group_of, group_step};
ghost use Rattle.exports.specs.Results.{group_result, group_result_of};

use super::{Answer, forwarded};
use group::Pair;

#[unsafe(no_mangle)]
pub extern "C" fn birnenschloss_send_group(
    t: &[u8],
    m: &mut [u8],
    area: &mut [u8],
    pairs: &[u8],
    statuses: &mut [u8],
) -> Answer
    ensures { group_result result m.new area.new statuses.new
        ≡ group_result_of (group_step t.now (group_of (in_bytes pairs.now) area.old statuses.old) m.old) }
{
    forwarded::answer_of(group::send_group(t, m, area, pairs, statuses))
}

#[unsafe(no_mangle)]
pub extern "C" fn birnenschloss_send_records(
    t: &[u8],
    m: &mut [u8],
    area: &mut [u8],
    pairs: &[Pair],
    statuses: &mut [u8],
) -> Answer
    ensures { group_result result m.new area.new statuses.new
        ≡ group_result_of (group_step t.now (group_of (in_records pairs.now) area.old statuses.old) m.old) }
{
    forwarded::answer_of(group::send_records(t, m, area, pairs, statuses))
}
