ghost use Rattle.store_steps.specs.Renames.{EnterStays, JoinRenames, LeaveRenames, MeetStays, MergeStays};
ghost use Rattle.store_steps.specs.Simulates.{AbsentStays, ClaimParentsStays, CopyParentStays, CopyStays, GiveIsGiveBack, HashIsNoStep, LengthIsLength, LoadIsLoad, LookIsTooLarge, LookStays, OpeningIsStart, PartStays, PublishIsPublish, PublishParentsStays, SettleIsSettle, StoreIsWrite, StoreParentStays, TakeIsClaim};

/// Lemma: if words and views represent a state of the schedules' machine and the rule holds, each step on the
/// words is legal for the machine's step of the same name, has the same reply, and leaves words and views that
/// represent the machine's next state. For a load this holds at any length, except that a schedule's read is
/// legal only up to 65,536 bytes. No effect at run time.
pub fn steps_are_the_machines()
    ensures take { TakeIsClaim }
    ensures give { GiveIsGiveBack }
    ensures store { StoreIsWrite }
    ensures publish { PublishIsPublish }
    ensures load { LoadIsLoad }
    ensures settle { SettleIsSettle }
    ensures too_large { LookIsTooLarge }
    ensures length { LengthIsLength }
{}

/// Lemma: new words represent the machine's start. The machine's Hash is no step on the words; loads that stand
/// in for a step, copies, calls for a group that doesn't exist and partings don't change the machine. No effect
/// at run time.
pub fn side_steps_stay()
    ensures opening { OpeningIsStart }
    ensures hash { HashIsNoStep }
    ensures look { LookStays }
    ensures copy { CopyStays }
    ensures absent { AbsentStays }
    ensures part { PartStays }
{}

/// Lemma: the machine has no parents, so no step on the words of parents changes it: claiming, storing,
/// publishing and copying them. With the loads that stand in for a step, these are all the steps of calls that
/// store or serve parents. No effect at run time.
pub fn parents_leave_the_machine()
    ensures claim { ClaimParentsStays }
    ensures store { StoreParentStays }
    ensures publish { PublishParentsStays }
    ensures copy { CopyParentStays }
{}

/// Lemma: if seats join, merge, meet or leave each other, and a joined seat counts as one, words and views
/// represent the machine in which the claims that moved are the other seat's, so the later steps are the
/// machine's too. No effect at run time.
pub fn joined_seats_are_renamed()
    ensures enter { EnterStays }
    ensures join { JoinRenames }
    ensures merge { MergeStays }
    ensures meet { MeetStays }
    ensures leave { LeaveRenames }
{}
