//! What holds of every step, and of replicas that are alike, for the layers above. The functions compute nothing:
//! each is a law, whose contract is a theorem.
ghost use Rattle.std.specs.Prelude.{◌≡◌, ◌++◌, Result};
ghost use Rattle.mr_replica.specs.Growing.{FeedGrows, PushOutFeedGrows, IsOfSameSetting, admitted};
ghost use Rattle.mr_replica.specs.One.{AreOneByEvent, AreOneByLog, AreOneIfAlike};
ghost use Rattle.mr_replica.specs.State.{State};
ghost use Rattle.mr_replica.specs.Step.{Steps};

use crate::{Event, Refusal, Replica, Reply};
use mr_forms::{Knowledge, OneValue};

/// A step only adds. The feed, and that of the push-outs, gets some entries behind those that it has, or none; the
/// log gets the event where it is admitted, and nothing where it is refused. Id, filter and limit stay.
pub fn steps_only_add<K: Knowledge>()
    ensures feed { (s new : State K) (event : Event) (answer : Result Reply Refusal) → Steps K.form s event answer new → FeedGrows s new }
    ensures push_out_feed { (s new : State K) (event : Event) (answer : Result Reply Refusal) → Steps K.form s event answer new → PushOutFeedGrows s new }
    ensures log { (s new : State K) (event : Event) (answer : Result Reply Refusal) → Steps K.form s event answer new → new.log ≡ s.log ++ admitted event answer }
    ensures setting { (s new : State K) (event : Event) (answer : Result Reply Refusal) → Steps K.form s event answer new → IsOfSameSetting s new }
{}

/// Replicas that are *alike* are the same in all but that the values of their knowledge may be two that know the same:
/// what a replica answers and becomes is told by what it knows, and not by how that is kept. Over a form with one value
/// for each knowledge, an `OneValue`, two such replicas are equal. So one log, with one id, filter and limit, has one
/// replica; and one event, of replicas that are alike, has one answer and one new replica, want of memory aside. A host
/// that has two may take the one for the other.
///
/// It looks at the logs and at the knowledge of both, since only of a value that calls made is it known that it is
/// its log replayed, and that no other value knows the same. Cost: none that grows with the replicas.
///
/// ```
/// let again = Replica::replay(alloc, id, filter, limit, log)?;
/// alike_are_one(&replica, &again);
/// ```
pub fn alike_are_one<K: OneValue>(first: &Replica<K>, second: &Replica<K>)
    ensures alike { AreOneIfAlike K.form first.now second.now }
    ensures log { AreOneByLog K.form first.now second.now }
    ensures event { AreOneByEvent K.form first.now second.now }
{
    let (_log, _other) = (first.log(), second.log());
    K::one_value(first.knowledge(), second.knowledge());
}
