ghost use Rattle.std.specs.Prelude.{◌≡◌, ◌≢◌, ◌↔◌};
ghost use Rattle.store_shared.specs.Seats.{IsSeatOf};
ghost use Rattle.berylwool.specs.Gathering.{CompletesOn, GathersOn, report_of};
ghost use Rattle.berylwool.specs.Handles.{HasSeat, SeatDid};

use crate::handle::{BwHandle, with_held};
use gather::{Encoded, Form, Place, Report, Shared, closing_round, salvage};
use std::alloc::Global;
use store_shared::{Assembly, Seat};

/// What a worker did, as C has it. A count stays at 2^64 - 1 once there.
#[repr(C)]
#[derive(Clone, Copy)]
pub struct BwReport {
    pub committed: u64,
    pub parents: u64,
    pub asked: u64,
    pub refused: u64,
    pub failed: u64,
    pub memory: u64,
    pub too_large: u32,
}

// The counts that C passes.
fn counts(shown: &BwReport) -> Report
    ensures { result ≡ report_of shown.now }
{
    Report {
        committed: shown.committed,
        parents: shown.parents,
        asked: shown.asked,
        refused: shown.refused,
        failed: shown.failed,
        memory: shown.memory,
        too_large: shown.too_large != 0,
    }
}

// The counts as C has them.
fn shown(report: &Report) -> BwReport
    ensures { report_of result ≡ report.now }
{
    BwReport {
        committed: report.committed,
        parents: report.parents,
        asked: report.asked,
        refused: report.refused,
        failed: report.failed,
        memory: report.memory,
        too_large: if report.too_large { 1 } else { 0 },
    }
}

// One worker's round, as `bw_seat_gather` does it.
fn gathered(
    alloc: Global,
    store: &Assembly,
    seat: &mut Seat,
    number: u32,
    workers: u32,
    text: &[u8],
    report: &BwReport,
) -> BwReport
    requires { IsSeatOf store.now seat.old }
    ensures of { IsSeatOf store.now seat.new }
    ensures gathers { GathersOn text.now (report_of report.now) (report_of result) seat.old seat.new }
    ensures completes { CompletesOn text.now (report_of report.now) (report_of result) seat.old seat.new }
{
    let workers = workers.max(1);
    let place = Place {
        number: number % workers,
        workers,
    };
    let mut all = counts(report);
    let mut holders = [Encoded::new(text)];
    // For the prover alone: this cites a lemma, and has no effect.
    store.mode().is_keyed();
    closing_round(
        alloc,
        &Form::Slices,
        &Shared(store),
        seat,
        &mut holders,
        place,
        &mut all,
    );
    shown(&all)
}

/// Gathers from one encoding: the round of worker `number` of `workers`, each with a seat of its own.
#[unsafe(no_mangle)]
pub extern "C" fn bw_seat_gather(
    alloc: Global,
    seat: &mut BwHandle,
    number: u32,
    workers: u32,
    text: &[u8],
    report: &mut BwReport,
) -> u32
    ensures gathers { result ≡ 0 → SeatDid (λ _ old new. GathersOn text.now (report_of report.old) (report_of report.new) old new) seat.old.held seat.new.held }
    ensures completes { result ≡ 0 → SeatDid (λ _ old new. CompletesOn text.now (report_of report.old) (report_of report.new) old new) seat.old.held seat.new.held }
    ensures has { result ≡ 0 ↔ HasSeat (λ _ _. Unit) seat.old.held }
    ensures status { result ≢ 0 → result ≡ 1202 }
    ensures same { result ≢ 0 → seat.new.held ≡ seat.old.held }
    ensures no_report { result ≢ 0 → report.new ≡ report.old }
{
    with_held!(seat, alloc, Seat, |it| {
        *report = gathered(
            alloc,
            &it.store,
            &mut it.seat,
            number,
            workers,
            text,
            report,
        );
        0
    })
}

// A round chunk by chunk, as `bw_seat_salvage` does it.
fn salvaged(
    alloc: Global,
    store: &Assembly,
    seat: &mut Seat,
    text: &[u8],
    report: &BwReport,
) -> BwReport
    requires { IsSeatOf store.now seat.old }
    ensures of { IsSeatOf store.now seat.new }
    ensures gathers { GathersOn text.now (report_of report.now) (report_of result) seat.old seat.new }
{
    let mut sums = counts(report);
    let mut holders = [Encoded::new(text)];
    // For the prover alone: this cites a lemma, and has no effect.
    let mode = store.mode();
    mode.is_keyed();
    salvage(
        alloc,
        &Form::Slices,
        &Shared(store),
        seat,
        &mut holders,
        &mut sums,
    );
    shown(&sums)
}

/// Gathers from one encoding as one worker's `bw_seat_gather` does, but chunk by chunk, so that a damaged chunk
/// costs no other.
#[unsafe(no_mangle)]
pub extern "C" fn bw_seat_salvage(
    alloc: Global,
    seat: &mut BwHandle,
    text: &[u8],
    report: &mut BwReport,
) -> u32
    ensures gathers { result ≡ 0 → SeatDid (λ _ old new. GathersOn text.now (report_of report.old) (report_of report.new) old new) seat.old.held seat.new.held }
    ensures has { result ≡ 0 ↔ HasSeat (λ _ _. Unit) seat.old.held }
    ensures status { result ≢ 0 → result ≡ 1202 }
    ensures same { result ≢ 0 → seat.new.held ≡ seat.old.held }
    ensures no_report { result ≢ 0 → report.new ≡ report.old }
{
    with_held!(seat, alloc, Seat, |it| {
        *report = salvaged(alloc, &it.store, &mut it.seat, text, report);
        0
    })
}
