//! The engine of an interactive simulation, and its users, the analysts, in threads of their own.
ghost use Rattle.std.specs.Prelude.{◌≡◌, ◌+◌, ◌≤◌, ◌<◌, [], ◌++◌, length, map, IfOk, IfErr, true};
ghost use Rattle.std.specs.Prelude.{vec_len, vec_capacity};
ghost use Rattle.decision_book.specs.declared.call.TheConstants.{MAX_CALLS};
ghost use Rattle.decision_desk.specs.declared.desk.TheConstants.{MAX_PARTS};
ghost use Rattle.decision_desk.specs.Desks.{desk_id};
ghost use Rattle.live_study.specs.Asking.{total_todo};
ghost use Rattle.live_study.specs.Driving.{HasCounted, HasDriven, MayDrive};
ghost use Rattle.live_study.specs.Engines.{StopsEngine};
ghost use Rattle.live_study.specs.Lives.{AreSeenLooks, AreTrueLooks, IsAllAsked, IsAtHorizon, looks_made};
ghost use Rattle.live_study.specs.Looks.{AreOfOneHistory};
ghost use Rattle.live_study.specs.Opening.{AreReadyAll, HasReservedFor};
ghost use Rattle.live_study.specs.Showing.{AllReadOneHistory, HaveActed, TellsEach, looks_to_make};
ghost use Rattle.world_core.specs.Worlds.{total_handled};

use crate::analyst::Analyst;
use crate::asking::act_everyone;
use crate::beside::{Driven, run_engine};
use crate::engine::Engine;
use crate::ready::Ready;
use crate::reserve::Reserve;
use crate::resources::Resources;
use crate::run::LiveRun;
use crate::work::Count;
use crew_pool::Gate;
use decision_desk::Desk;
use net_model::Model;
use shelf::{Naming, Seat, Stock, Stocker};
use std::sync::Wait;
use std::sync::ledger::{Blank, Ledger};
use std::thread;
use std::thread::Threads;
use world_core::World;

// Runs the engine and all analysts concurrently. All threads are joined.
fn side_by_side<
    G: Gate + Sync,
    J: Naming + Send + Sync,
    L: Ledger + Send,
    W: Wait + Drop + Send,
    R: Threads + Wait + Sync,
>(
    resources: &Resources<'_, G, R>,
    model: &Model,
    desk: &Desk,
    engine: Engine<Stocker<J, W>>,
    world: World,
    seated: Vec<(Analyst, Seat<J>)>,
    blank: Blank,
) -> (Driven<L, Stocker<J, W>>, Vec<(Analyst, Seat<J>)>)
    requires may_drive { MayDrive (desk_id desk.now) engine.helm world engine.stocker.stock.published }
    requires ready { AreReadyAll (desk_id desk.now) model.now seated.items }
    requires first { total_handled world.net world.clones world.front ≡ 0 }
    requires counter { (blank.name ≡ L.name) × (blank.parts ≡ L.parts) × (0 < L.parts) }
    ensures driven { HasDriven engine.helm result.0.engine.helm result.0.run
        result.0.engine.stocker.stock.published engine.stocker.stock.readers
        result.0.engine.stocker.stock.has_published (length result.0.engine.stocker.stock.spares.items) }
    ensures counted { HasCounted result.0.run result.0.count.steps result.0.count.many }
    ensures acted { HaveActed (desk_id desk.now) model.now seated.items result.1.items }
{
    thread::join(
        resources.rt,
        move || -> Driven<L, Stocker<J, W>>
            requires { MayDrive (desk_id desk.now) engine.helm world engine.stocker.stock.published
                × (total_handled world.net world.clones world.front ≡ 0)
                × (blank.name ≡ L.name) × (blank.parts ≡ L.parts) × (0 < L.parts) }
            ensures { HasDriven engine.helm result.engine.helm result.run
                result.engine.stocker.stock.published engine.stocker.stock.readers
                result.engine.stocker.stock.has_published (length result.engine.stocker.stock.spares.items)
                × HasCounted result.run result.count.steps result.count.many }
        { run_engine::<G, J, L, W, R>(resources, desk, engine, world, blank) },
        move || -> Vec<(Analyst, Seat<J>)>
            requires { AreReadyAll (desk_id desk.now) model.now seated.items }
            ensures { HaveActed (desk_id desk.entry.now) model.entry.now seated.items result.items }
        { act_everyone(resources.rt, desk, resources.gate, model, seated) },
    )
}

// A seat learns what was published last.
fn learn_last<J: Naming>(stock: &mut Stock<J>, seat: &mut Seat<J>)
    requires tells { stock.old.has_published ≡ true }
    requires left { 1 ≤ length stock.old.spares.items }
    ensures history { AreOfOneHistory stock.old.published seat.old }
    ensures published { stock.new.published ≡ stock.old.published }
    ensures tells { stock.new.has_published ≡ true }
    ensures left { length stock.old.spares.items ≡ length stock.new.spares.items + 1 }
{
    let Some(told) = stock.told() else {
        unreachable!()
    };
    seat.learn(told);
}

// Puts the passes and the looks of the analysts into the memory that was reserved for them. If the run is finished,
// each seat learns what was published last.
fn close_seats<J: Naming>(
    finished: bool,
    stock: &mut Stock<J>,
    seated: Vec<(Analyst, Seat<J>)>,
    reserve: Reserve,
) -> Reserve
    requires passes { vec_len reserve.passes + length seated.items ≤ vec_capacity reserve.passes }
    requires looks { vec_len reserve.looks + length seated.items ≤ vec_capacity reserve.looks }
    requires tells { finished ≡ true →
        TellsEach (length seated.items) stock.old.has_published (length stock.old.spares.items) }
    ensures passes { result.passes.items ≡ reserve.passes.items ++ map (λ a. a.0.pass) seated.items }
    ensures looks { result.looks.items ≡ reserve.looks.items ++ map (λ a. a.0.looks) seated.items }
    ensures history { finished ≡ true → AllReadOneHistory stock.old.published seated.items }
{
    let Reserve {
        mut passes,
        mut looks,
    } = reserve;
    for one in seated {
        let (analyst, mut seat) = one;
        if finished {
            learn_last(stock, &mut seat);
        }
        let Analyst {
            number: _,
            pass,
            todo: _,
            looks: seen,
        } = analyst;
        passes.push_reserved(pass);
        looks.push_reserved(seen);
    }
    Reserve { passes, looks }
}

/// Runs the engine and all analysts, and closes the desk. All threads are joined, however it ends. Nothing is allocated
/// after that, so the book and the looks are there in any case.
pub(crate) fn run_live<
    G: Gate + Sync,
    J: Naming + Send + Sync,
    L: Ledger + Send,
    W: Wait + Drop + Send,
    R: Threads + Wait + Sync,
>(
    resources: &Resources<'_, G, R>,
    model: &Model,
    ready: Ready<J, Stocker<J, W>>,
    blank: Blank,
) -> (LiveRun, Count<L>)
    // helm, world and stocker are in step, the analysts are ready, and there are places for what they leave
    requires may_drive { MayDrive (desk_id ready.desk) ready.engine.helm ready.world
        ready.engine.stocker.stock.published }
    requires net { ready.engine.helm.net ≡ model.now }
    requires parts { ready.engine.helm.parts + length ready.seated.items ≡ MAX_PARTS }
    requires fresh { ready.engine.helm.accounts ≡ [] }
    requires ready { AreReadyAll (desk_id ready.desk) model.now ready.seated.items }
    requires at_most { total_todo ready.seated.items ≤ MAX_CALLS }
    requires reserve { HasReservedFor (length ready.seated.items) ready.reserve }
    requires readers { ready.engine.stocker.stock.readers ≡ length ready.seated.items }
    // nothing was handled yet, and the engine's counter is made of the blank
    requires first { total_handled ready.world.net ready.world.clones ready.world.front ≡ 0 }
    requires counter { (blank.name ≡ L.name) × (blank.parts ≡ L.parts) × (0 < L.parts) }
    // however it ends: each analyst has asked all its decisions and made all its looks
    ensures asked { IsAllAsked ready.engine.helm.net ready.seated.items result.0.book }
    ensures made { looks_made result.0.looks.items ≡ looks_to_make ready.seated.items }
    ensures seen { AreSeenLooks ready.engine.helm.net result.0.looks.items }
    // at the horizon: the looks are true of the journal, and the world has the clones that it leaves
    ensures looked { IfOk result.0.run (λ w.
        AreTrueLooks ready.engine.helm.net result.0.book.events result.0.looks.items) }
    ensures finished { IfOk result.0.run (λ w. IsAtHorizon ready.engine.helm.net result.0.book w) }
    // or why the engine stopped, over the journal
    ensures stopped { IfErr result.0.run (λ e. StopsEngine ready.engine.helm.net result.0.book.events e) }
    // what the engine's counter counted, with the counter
    ensures counted { HasCounted result.0.run result.1.steps result.1.many }
{
    let Ready {
        desk,
        engine,
        world,
        seated,
        reserve,
    } = ready;
    let (driven, seated) = side_by_side::<G, J, L, W, R>(
        resources, model, &desk, engine, world, seated, blank,
    );
    let Driven {
        mut engine,
        run,
        count,
    } = driven;
    let reserve = close_seats(run.is_ok(), &mut engine.stocker.stock, seated, reserve);
    let Reserve { passes, looks } = reserve;
    let Engine { helm, .. } = engine;
    let book = desk.close(passes, helm);
    let _legal = book.book().front();
    let _valid = model.lookahead();
    (LiveRun { book, looks, run }, count)
}
