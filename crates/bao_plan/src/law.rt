ghost use Rattle.bao_plan.specs.Laws.{BlameIsExact, CallsReach, CountedOnce, Ends, Enough, LeftAlone, LeftOutForFailures, NeverStuck, NoWaste, OneIsEnough, OpenUntilKept, StartIsReached};

/// Each call of a plan goes on with a history that begins where `new` does, so that the laws here are about each plan. A law:
/// nothing runs.
pub fn calls_are_a_history()
    ensures start { StartIsReached }
    ensures calls { CallsReach }
{}

/// A chunk that a holder is asked for is lacking, and was never given falsely by it. A holder that asks to be left alone is.
/// A law: nothing runs.
pub fn no_waste()
    ensures chunks { NoWaste }
    ensures alone { LeftAlone }
{}

/// What is held against a holder is exactly what was refused of it, and it is left out only after as many failures in a row as
/// the policy says, all its own. A law: nothing runs.
pub fn blame_is_exact()
    ensures refused { BlameIsExact }
    ensures left_out { LeftOutForFailures }
{}

/// Each chunk is counted once, when it is first given truly, and is lacking until then. A law: nothing runs.
pub fn counted_once()
    ensures once { CountedOnce }
    ensures open { OpenUntilKept }
{}

/// Where a holder has nothing more to be asked for, each chunk that is lacking is under way at it, or was refused of it or
/// denied by it, or it is left out. So one holder that gives all truly is enough, whatever others do. A law: nothing runs.
pub fn one_is_enough()
    ensures each { Enough }
    ensures one { OneIsEnough }
{}

/// Only so many requests end: a row of failures for each chunk and for each holder, and one request for each chunk of each
/// holder. A law: nothing runs.
pub fn ends()
    ensures { Ends }
{}

/// Where nothing is under way and some holder could be asked for something by now, some holder is. A law: nothing runs.
pub fn never_stuck()
    ensures { NeverStuck }
{}
