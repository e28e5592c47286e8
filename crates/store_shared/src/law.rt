ghost use Rattle.store_shared.specs.OneLine.{AreInRealTime};
ghost use Rattle.store_shared.specs.Partner.{JoinedCountsAsOne, OthersCountAsBefore, RepliesAreTheStores};

/// Lemma: a new single-threaded store that gets the calls of a legal history in order gives the history's
/// replies.
///
/// If seats were joined, the claims of one are first given and taken by the other, group by group; from then on
/// the two count as one seat of that store. The history that a seat has seen is such a history and ends with
/// the seat's last call. So every list of calls that one thread makes, with one seat or with several, split or
/// joined, gets the same replies from both stores. No effect at run time.
pub fn replies_are_the_stores()
    ensures replies { RepliesAreTheStores }
    ensures joined { JoinedCountsAsOne }
    ensures others { OthersCountAsBefore }
{}

/// Lemma: a call comes, in the history that its seat has then seen, after all that any other seat had seen when the
/// call began: calls that didn't overlap stand in the order of time, whether or not their seats ever meet.
///
/// What two seats have seen is in one line at any moment, as `meet` says of the moment before it. No effect at run time.
pub fn calls_in_real_time()
    ensures { AreInRealTime }
{}
