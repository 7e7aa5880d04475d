//! What the thread of an analyst does: it asks the desk for its decisions and observes the stations at its looks.
ghost use Rattle.std.specs.Prelude.{◌≡◌, ◌++◌, ◌∷◌, ◌<◌, [], List, length};
ghost use mathlib.Core.List.{IsPrefix};
ghost use Rattle.decision_desk.specs.Desks.{desk_id};
ghost use Rattle.decision_script.specs.declared.item.Act.{Act as OfAct};
ghost use Rattle.decision_script.specs.declared.item.Act.TheVariants.{Decide, Look};
ghost use Rattle.live_study.specs.Asking.{HasAsked, IsSameAnalyst};
ghost use Rattle.live_study.specs.Looks.{HasRacks, IsNoEarlier, IsReadLook};
ghost use Rattle.live_study.specs.Opening.{AreReadyAll};
ghost use Rattle.live_study.specs.Showing.{HasActed, HasLooked, HaveActed, MayAct};

use crate::analyst::Analyst;
use crew_pool::Gate;
use decision_desk::Desk;
use decision_script::{Act, MAX_ANALYSTS};
use journal_text::Looked;
use net_model::Model;
use shelf::{Naming, Seat};
use sim_base::{Decision, Name};
use std::sync::Wait;
use std::thread;
use std::thread::Threads;

// Asks a decision.
fn ask<R: Wait>(rt: &R, desk: &Desk, analyst: &mut Analyst, d: Decision)
    requires desk { analyst.old.pass.desk ≡ desk_id desk.now }
    ensures asked { (acts : List OfAct) → HasAsked (desk_id desk.now) acts analyst.old →
        HasAsked (desk_id desk.now) (acts ++ Decide d ∷ []) analyst.new }
    ensures same { IsSameAnalyst analyst.old analyst.new }
    ensures looks { analyst.new.looks ≡ analyst.old.looks }
{
    let _receipt = desk.decide(rt, &mut analyst.pass, d);
}

// Looks at a clone's station. It sees nothing if the model has no such station.
fn see<J: Naming>(
    model: &Model,
    seat: &mut Seat<J>,
    number: u32,
    who: Name,
    station: Name,
) -> Looked
    requires has_rack { HasRacks model.now seat.old }
    ensures begins { IsPrefix seat.old seat.new }
    ensures has_rack { HasRacks model.now seat.new }
    ensures read { IsReadLook model.now seat.new result }
    // no earlier look was at a later front
    ensures later { (l : _) → IsReadLook model.now seat.old l → IsNoEarlier l result }
    ensures number { result.analyst ≡ number }
    ensures who { result.who ≡ who }
    ensures station { result.station ≡ station }
{
    let glance = match model.find(&station) {
        Some(s) => Some(seat.look(s, &who)),
        None => None,
    };
    Looked {
        analyst: number,
        who,
        station,
        glance,
    }
}

// Looks, and keeps what was seen.
fn look<J: Naming>(
    model: &Model,
    analyst: &mut Analyst,
    seat: &mut Seat<J>,
    who: Name,
    station: Name,
)
    requires has_rack { HasRacks model.now seat.old }
    requires free { length analyst.old.looks.items < analyst.old.looks.reserved }
    ensures looked { (acts : List OfAct) → HasLooked model.now acts (analyst.old, seat.old) →
        HasLooked model.now (acts ++ Look who station ∷ []) (analyst.new, seat.new) }
    ensures same { IsSameAnalyst analyst.old analyst.new }
    ensures pass { analyst.new.pass ≡ analyst.old.pass }
{
    let looked = see(model, seat, analyst.number, who, station);
    let Ok(()) = analyst.looks.push(looked) else {
        unreachable!()
    };
}

// Does what an act says.
fn act_once<J: Naming, R: Wait>(
    rt: &R,
    desk: &Desk,
    model: &Model,
    analyst: &mut Analyst,
    seat: &mut Seat<J>,
    act: Act,
)
    requires desk { analyst.old.pass.desk ≡ desk_id desk.now }
    requires has_rack { HasRacks model.now seat.old }
    requires free { length analyst.old.looks.items < analyst.old.looks.reserved }
    ensures asked { (acts : List OfAct) → HasAsked (desk_id desk.now) acts analyst.old →
        HasAsked (desk_id desk.now) (acts ++ act ∷ []) analyst.new }
    ensures looked { (acts : List OfAct) → HasLooked model.now acts (analyst.old, seat.old) →
        HasLooked model.now (acts ++ act ∷ []) (analyst.new, seat.new) }
    ensures same { IsSameAnalyst analyst.old analyst.new }
{
    match act {
        Act::Decide(d) => ask(rt, desk, analyst, d),
        Act::Look { who, station } => look(model, analyst, seat, who, station),
    }
}

/// An analyst does all that it has to do, in order.
pub(crate) fn act_all<J: Naming, G: Gate, R: Wait>(
    rt: &R,
    desk: &Desk,
    gate: &G,
    model: &Model,
    analyst: &mut Analyst,
    seat: &mut Seat<J>,
)
    requires may_act { MayAct (desk_id desk.now) model.now (analyst.old, seat.old) }
    ensures acted { HasActed (desk_id desk.now) model.now (analyst.old, seat.old) (analyst.new, seat.new) }
{
    for k in 0..analyst.todo.len() {
        gate.before_call(analyst.number, k as u32);
        let act = analyst.todo[k];
        act_once(rt, desk, model, analyst, seat, act);
    }
}

/// Runs all analysts, each in its own thread.
pub(crate) fn act_everyone<J: Naming + Send + Sync, G: Gate + Sync, R: Threads + Wait + Sync>(
    rt: &R,
    desk: &Desk,
    gate: &G,
    model: &Model,
    mut seated: Vec<(Analyst, Seat<J>)>,
) -> Vec<(Analyst, Seat<J>)>
    requires { AreReadyAll (desk_id desk.now) model.now seated.items }
    ensures acted { HaveActed (desk_id desk.now) model.now seated.items result.items }
{
    thread::for_each_mut(
        rt,
        seated.as_mut_slice(),
        MAX_ANALYSTS,
        &|_i: usize, one: &mut (Analyst, Seat<J>)|
            requires { MayAct (desk_id desk.now) model.now one.old }
            ensures { HasActed (desk_id desk.entry.now) model.entry.now one.entry.now one.exit.now }
        {
            let (analyst, seat) = one;
            act_all(rt, desk, gate, model, analyst, seat)
        },
    );
    seated
}
