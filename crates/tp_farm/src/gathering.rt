//! Gathering: the members' results become one batch.

ghost use Rattle.std.specs.Prelude.{◌≡◌, ◌≤◌, ◌+◌, ◌++◌, None, Some, All, map, slice_get, slice_set, OnOk, IfErr};
ghost use Rattle.std.specs.Prelude.{vec_len, vec_capacity};
ghost use Rattle.tp_collect.specs.Collected.{JobValue};
ghost use Rattle.tp_collect.specs.Collecting.{vacant};
ghost use Rattle.tp_farm.specs.Refused.{IsEnvironmental};
ghost use Rattle.tp_farm.specs.Gathering.{number_of, entry_of, IsOfBatch, entries_with, FindVacant, fault_of_end};
ghost use Rattle.tp_farm.specs.MemberResults.{member_results, filings_of};

use crate::fault::FarmFault;
use crate::member::{End, Filed};
use crate::thread::Returned;
use tp_collect::Collector;
use tp_link::{LinkDevice, Links};
use tp_stream::StreamHand;

/// The results of a member when its hand is gone.
#[derive(Drop)]
pub(crate) struct MemberResults<D> {
    pub(crate) links: Links<D>,
    pub(crate) filed: Vec<Filed>,
}

/// The fault of a member that ended by one.
fn fault_of_end(end: End) -> Option<FarmFault>
    ensures { result ≡ fault_of_end end }
{
    match end {
        End::Drained | End::Stopped => None,
        End::Memory => Some(FarmFault::Memory),
    }
}

/// Takes the hands from what the members gave back; the first fault of a member is the answer.
pub(crate) fn take_hands<D: LinkDevice>(
    returned: Vec<Returned<D>>,
    hands: &mut Vec<StreamHand>,
    kept: &mut Vec<MemberResults<D>>,
) -> Result<(), FarmFault>
    requires hands { vec_len hands.old + vec_len returned ≤ vec_capacity hands.old }
    requires kept { vec_len kept.old + vec_len returned ≤ vec_capacity kept.old }
    ensures hands { OnOk result (hands.new.items ≡ hands.old.items ++ map (λ r. r.hand) returned.items) }
    ensures kept { OnOk result (kept.new.items ≡ kept.old.items ++ map member_results returned.items) }
    ensures well { OnOk result (All (λ r. fault_of_end r.end ≡ None) returned.items) }
    ensures err { IfErr result IsEnvironmental }
{
    for one in returned {
        if let Some(fault) = fault_of_end(one.end) {
            return Err(fault);
        }
        hands.push_reserved(one.hand);
        kept.push_reserved(MemberResults {
            links: one.links,
            filed: one.filed,
        });
    }
    Ok(())
}

/// Files one result or loss.
fn file_one(collector: &mut Collector<'_>, one: Filed)
    requires of { IsOfBatch collector.old.batch one }
    requires vacant { slice_get collector.old.entries (number_of one) ≡ Some vacant }
    ensures { collector.new ≡
        record collector.old { entries = slice_set collector.old.entries (number_of one) (entry_of one) } }
{
    match one {
        Filed::Done(done) => {
            let _ = collector.put(done);
        }
        Filed::Lost(number, fault) => {
            let _ = collector.lose(number, fault);
        }
    }
}

/// Files what a member filed.
fn gather(collector: &mut Collector<'_>, filed: Vec<Filed>)
    requires of { All (IsOfBatch collector.old.batch) filed.items }
    requires vacant { FindVacant collector.old.entries filed.items }
    ensures { collector.new ≡ record collector.old { entries = entries_with collector.old.entries filed.items } }
{
    for one in filed {
        file_one(collector, one);
    }
}

/// Files what all members filed, and gives back their devices in order.
pub(crate) fn gather_all<D: LinkDevice>(
    collector: &mut Collector<'_>,
    kept: Vec<MemberResults<D>>,
    links: &mut Vec<Links<D>>,
)
    requires of { All (λ k. All (IsOfBatch collector.old.batch) k.filed.items) kept.items }
    requires vacant { FindVacant collector.old.entries (filings_of kept.items) }
    requires room { vec_len links.old + vec_len kept ≤ vec_capacity links.old }
    ensures entries { collector.new ≡
        record collector.old { entries = entries_with collector.old.entries (filings_of kept.items) } }
    ensures links { links.new.items ≡ links.old.items ++ map (λ k. k.links) kept.items }
{
    for one in kept {
        gather(collector, one.filed);
        links.push_reserved(one.links);
    }
}
