ghost use Rattle.std.specs.Prelude.{All};
ghost use Rattle.store_core.specs.Knowledge.{Sees};
ghost use Rattle.store_shared.specs.Seats.{IsSeatOf};
ghost use Rattle.gather.specs.Crews.{Each};
ghost use Rattle.gather.specs.Turns.{AllMeet, Meets};

use crate::crew::Crew;
use store_shared::{Assembly, Seat};

// A seat and a crew meet.
fn meet_one<H>(assembly: &Assembly, seat: &mut Seat, crew: &mut Crew<H>)
    requires seat { IsSeatOf assembly.now seat.old }
    requires crew { IsSeatOf assembly.now crew.old.seat }
    ensures of { IsSeatOf assembly.now seat.new }
    ensures sees { Sees seat.old.view seat.new.view }
    ensures meets { Meets assembly.now seat.old.view seat.new.view crew.old crew.new }
{
    assembly.meet(seat, &mut crew.seat);
}

// A seat meets crews in order.
fn meet_each<H>(assembly: &Assembly, seat: &mut Seat, crews: &mut [Crew<H>])
    requires seat { IsSeatOf assembly.now seat.old }
    requires crews { All (λ crew. IsSeatOf assembly.now crew.seat) crews.old }
    ensures of { IsSeatOf assembly.now seat.new }
    ensures sees { Sees seat.old.view seat.new.view }
    ensures meets { Each (Meets assembly.now seat.old.view seat.new.view) crews.old crews.new }
{
    for number in 0..crews.len() {
        meet_one(assembly, seat, &mut crews[number]);
    }
}

// All crews meet. The first meets the others twice: once to see what they have seen, and once to show them all of it.
pub(crate) fn all_meet<H>(assembly: &Assembly, crews: &mut [Crew<H>])
    requires { All (λ crew. IsSeatOf assembly.now crew.seat) crews.old }
    ensures { AllMeet assembly.now crews.old crews.new }
{
    if let Some((first, others)) = crews.split_first_mut() {
        meet_each(assembly, &mut first.seat, others);
        meet_each(assembly, &mut first.seat, others);
    }
}
