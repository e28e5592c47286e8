ghost use Rattle.store_core.specs.Laws.{ByteBinds, ClaimsApart, ClaimsLast, CommittedAddUp, CommittedOnce, HeldBinds, HeldIsCommitted, HeldLasts, JoinKeeps, ParentHeldBinds, ParentIsStored, ParentLasts, LegalIsSound, ReadMeans, RecordBinds, RecordIsSettled, RecordLasts, RunsAreLegal, RunsAreOne, ServedAccepted, ServedBinds, SplitKeeps, StateDetermines};
ghost use Rattle.store_core.specs.Orders.{JoinKeepsOrder, LeastIsOne, OrderIsOne, SplitKeepsOrder};

/// Lemma: the state after a history determines every reply, except which parents are stored. No effect at run
/// time.
pub fn state_determines()
    ensures { StateDetermines }
{}

/// Lemma: what a store holds stays, with the same bytes, and so does a recorded length. No effect at run time.
pub fn held_lasts()
    ensures held { HeldLasts }
    ensures recorded { RecordLasts }
{}

/// Lemma: no chunk is claimed by two callers without a common name or is both claimed and held, and all claimed
/// or held chunks are below the capacity. A caller's claims last while only others call. No effect at run time.
pub fn claims_apart()
    ensures apart { ClaimsApart }
    ensures sound { LegalIsSound }
    ensures last { ClaimsLast }
{}

/// Lemma: each held chunk is in exactly one commit of the history, with the bytes of its accepted slice, so the
/// masks of the commits add up to the number of chunks held. A recorded length is that of the slice that
/// settled it. No effect at run time.
pub fn held_is_committed()
    ensures committed { HeldIsCommitted }
    ensures once { CommittedOnce }
    ensures sum { CommittedAddUp }
    ensures settled { RecordIsSettled }
{}

/// Lemma: a read returns the bytes of its range that are held, up to the first that isn't. No effect at run
/// time.
pub fn read_means()
    ensures { ReadMeans }
{}

/// Lemma: for every blob with the store's root, each held chunk is the blob's chunk of that index, each held
/// byte is the blob's byte at that offset (both counted from the store's first chunk), and a recorded length is
/// the blob's; or a collision is exhibited, one input from the blob and one from the slice that was committed
/// or settled. No effect at run time.
pub fn held_binds()
    ensures chunk { HeldBinds }
    ensures byte { ByteBinds }
    ensures length { RecordBinds }
{}

/// Lemma: a split keeps the first seat's names, and so its calls and claims; a joined seat has the names, calls
/// and claims of both. No effect at run time.
pub fn join_keeps()
    ensures split { SplitKeeps }
    ensures join { JoinKeeps }
{}

/// Lemma: a seat's names stay in dictionary order without duplicates if it splits, or if two seats without a
/// common name join. In order, only the first name is the least, and a set of names has only one such list. No
/// effect at run time.
pub fn names_stay_in_order()
    ensures split { SplitKeepsOrder }
    ensures join { JoinKeepsOrder }
    ensures least { LeastIsOne }
    ensures one { OrderIsOne }
{}

/// Lemma: a schedule that runs from the start, each step legal in its turn, is a legal history of the store,
/// and its words represent the state after that history. Its steps determine the replies, the events and the
/// end. No effect at run time.
pub fn runs_are_legal()
    ensures legal { RunsAreLegal }
    ensures one { RunsAreOne }
{}

/// Lemma: a held parent stays, with the same bytes, and comes from an accepted slice that claims the recorded
/// length. No effect at run time.
pub fn parents_last()
    ensures last { ParentLasts }
    ensures stored { ParentIsStored }
{}

/// Lemma: for every blob with the store's root, each held parent is the blob's parent at that boundary, and a
/// served encoding is the blob's slice; or a collision is exhibited, one input from the blob and one from the
/// slice that the parent, a node of the served slice or the recorded length came from.
///
/// Under any root, a blob's hash or not, a served encoding is accepted; or one of its chunks was committed from
/// a slice that claims another length than the one that settled the length; or at one of its parents a
/// collision is exhibited, one input from the slice that the parent came from and one from another that a node
/// or the length came from. No effect at run time.
pub fn served_binds()
    ensures parent { ParentHeldBinds }
    ensures text { ServedBinds }
    ensures accepted { ServedAccepted }
{}
