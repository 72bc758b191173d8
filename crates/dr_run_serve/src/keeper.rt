//! The one who tells of a node, has it forget what is over, and ends it where its store is shut.
ghost use Rattle.std.specs.Prelude.{◌≡◌, ℕ, [], List, None, false};
ghost use Rattle.dr_run_serve.specs.Keeps.{EndsKeeping, KeepsOnce};
ghost use Rattle.dr_run_serve.specs.Pasts.{HasNoted, TellsPage};
ghost use Rattle.dr_run_serve.specs.Sendings.{TellsShut};
ghost use Rattle.dr_run_serve.specs.Sweeps.{Chain, Sweeping, TurnsIf, sweeping};
ghost use Rattle.dr_run_serve.specs.declared.past.Past.{Past as PastValue};
ghost use Rattle.dr_run_serve.specs.declared.shutting.EndStage.{EndStage as StageValue};
ghost use Rattle.dr_run_serve.specs.declared.shutting.EndStage.TheVariants as stages;

use crate::calling::Calling;
use crate::events::tell_threads;
use crate::live::LiveNode;
use crate::monitor::Monitor;
use crate::reporting::{LastTold, report_changes};
use crate::shutting::{EndStage, Wake};
use crate::signal::{BEGIN, News};
use crate::sweeper::{Sweeper, tell_turn};
use dr_desk::{Pass, Sharing};
use dr_ledger_views::Views;
use dr_run_net::{Listening, Network};
use dr_session::Clock;
use log::Log;
use std::sync::Wait;
use std::time;

/// It looks every so many milliseconds.
const TURN: u64 = 1_000;

/// After so many looks all threads that send should have begun.
const PATIENCE: u32 = 10;

/// Tells, once, where the system gave fewer threads that send than there are hops.
fn tell_lacking<G: Log>(log: &G, senders: usize, news: News) {
    if news.senders < senders {
        tell_threads(log, "send", senders, news.senders);
    }
}

/// A turn of the one who sweeps, where the node serves; what came of it is told.
fn sweep_if<R: Wait, L: Views, B: Sharing, C: Clock, G: Log>(
    node: &LiveNode<'_, R, L, B, C, G>,
    sweeper: &mut Sweeper<B>,
    serves: bool,
)
    ensures turns { TurnsIf L.site L.book L.stands L.failed B.site B.first
        (TellsPage L.site L.book L.bodies L.stands L.failed B.site B.first L.numbered)
        (C.tells node.now.clock.now) sweeper.old.after serves
        (sweeping sweeper.old.next sweeper.old.sweep sweeper.old.past
        sweeper.old.pass.made.count sweeper.old.pass.receipts.items)
        (sweeping sweeper.new.next sweeper.new.sweep sweeper.new.past
        sweeper.new.pass.made.count sweeper.new.pass.receipts.items) }
    ensures terms { sweeper.new.after ≡ sweeper.old.after }
{
    if !serves {
        return;
    }
    let came = sweeper.turn(node, node.clock.now());
    tell_turn(node, came);
}

/// Tells what has changed, now and then, until nobody serves or sends any more; then once more. It
/// has the node forget what has been over for long. Where somebody doubts the store and it is shut,
/// it ends the node. It visits no hop and serves nobody, so that neither holds it up.
fn keep_on<
    R: Wait + time::Clock,
    L: Views,
    B: Sharing,
    D: Listening,
    N: Network,
    C: Clock,
    G: Monitor,
    W: Calling,
>(
    node: &LiveNode<'_, R, L, B, C, G>,
    senders: usize,
    sweeper: &mut Sweeper<B>,
    wake: &Wake<'_, D, N>,
    calling: &W,
)
    ensures { (each : List ℕ) × (stage : StageValue)
        × Chain (KeepsOnce L.site L.book L.stands L.failed B.site B.first
        (TellsPage L.site L.book L.bodies L.stands L.failed B.site B.first L.numbered)
        (C.tells node.now.clock.now) sweeper.old.after) each (
          stages.Serving,
          sweeping sweeper.old.next sweeper.old.sweep sweeper.old.past
              sweeper.old.pass.made.count sweeper.old.pass.receipts.items,
        ) (
          stage,
          sweeping sweeper.new.next sweeper.new.sweep sweeper.new.past
              sweeper.new.pass.made.count sweeper.new.pass.receipts.items,
        )
        × EndsKeeping (W.begins calling.now false)
        (TellsShut L.site L.book L.bodies L.stands L.failed B.site B.first)
        (W.brings calling.now) each }
{
    let (rt, clock, log) = (node.rt, node.clock, node.log);
    if !calling.begun(BEGIN) {
        return;
    }
    let (mut told, mut stage, mut looks) = (LastTold::new(), EndStage::Serving, 0u32);
    for _look in rt.forever() {
        let now = clock.now();
        stage = wake.stops(rt, stage, now, log);
        told = report_changes(node, told, now, false);
        sweep_if(node, sweeper, stage.serves());
        let news = calling.news(TURN);
        if news.doubts && wake.ends(rt, node.desk, log) {
            return;
        }
        if news.over && news.sent {
            report_changes(node, told, clock.now(), true);
            return;
        }
        looks = looks.saturating_add(1);
        if looks == PATIENCE {
            tell_lacking(log, senders, news);
        }
    }
}

/// The same with a pass, by which it forgets what has been over for so many milliseconds; the pass.
pub fn keep<
    R: Wait + time::Clock,
    L: Views,
    B: Sharing,
    D: Listening,
    N: Network,
    C: Clock,
    G: Monitor,
    W: Calling,
>(
    node: &LiveNode<'_, R, L, B, C, G>,
    senders: usize,
    pass: Pass<B>,
    after: Option<u64>,
    wake: &Wake<'_, D, N>,
    calling: &W,
) -> Pass<B>
    ensures { (begins : PastValue) × (each : List ℕ) × (stage : StageValue) × (ends : Sweeping)
        × HasNoted [] begins
        × Chain (KeepsOnce L.site L.book L.stands L.failed B.site B.first
        (TellsPage L.site L.book L.bodies L.stands L.failed B.site B.first L.numbered)
        (C.tells node.now.clock.now) after) each
        (stages.Serving, sweeping 0 None begins pass.made.count pass.receipts.items) (stage, ends)
        × (ends.pass ≡ (result.made.count, result.receipts.items))
        × EndsKeeping (W.begins calling.now false)
        (TellsShut L.site L.book L.bodies L.stands L.failed B.site B.first)
        (W.brings calling.now) each }
{
    let mut sweeper = Sweeper::new(node.alloc, pass, after);
    keep_on(node, senders, &mut sweeper, wake, calling);
    sweeper.into_pass()
}
