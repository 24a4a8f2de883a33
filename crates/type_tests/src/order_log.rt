//! The order log: worked figures on one thread, and two threads whose snapshots are synchronized.
ghost use Rattle.std.specs.Prelude.{◌≡◌, ◌<◌, ◌≤◌, length, All, IfSome};
ghost use Rattle.type_tests.specs.Commands.{HasCommands};

use crate::terms::state;
use edit_terms::{Case, Command, Grid, Items, Line, Name, Pos, Script, WorldBox};
use std::alloc::Global;
use std::marker::Brand;
use std::sync::{Mutex, Wait};
use std::thread::{Threads, join};
use ticket_log::{BlankLog, Drawer, Drawn, Log, Pass, RunName, meet};

/// So many commands.
fn lines(alloc: Global, commands: u32) -> Option<Items<Line>>
    ensures { IfSome result (λ lines. length lines ≡ commands) }
{
    let mut lines = Vec::new(alloc);
    for number in 0..commands {
        let command = Command::Copy;
        lines.push(Line { number, command }).ok()?;
    }
    Some(Items::from_vec(lines))
}

/// The scripts of so many players, of so many commands each.
fn scripts(alloc: Global, players: u32, commands: u32) -> Option<Items<Script>>
    ensures count { IfSome result (λ scripts. length scripts ≡ players) }
    ensures each { IfSome result (λ scripts. All (λ script. length script.lines ≡ commands) scripts) }
{
    let mut scripts = Vec::new(alloc);
    for _player in 0..players {
        let player = Name::from_vec(Vec::new(alloc));
        let lines = lines(alloc, commands)?;
        scripts.push(Script { player, lines }).ok()?;
    }
    Some(Items::from_vec(scripts))
}

/// A world of one block.
fn grid(alloc: Global) -> Option<Grid> {
    let area = WorldBox::new(Pos { x: 0, y: 0, z: 0 }, 1, 1, 1)?;
    let kinds = vec![in alloc; state(alloc, b"stone")?].ok()?;
    Grid::from_parts(alloc, area, kinds, vec![in alloc; 0].ok()?)
}

fn case(alloc: Global, players: u32, commands: u32) -> Option<Case>
    ensures { IfSome result (λ case. HasCommands case players commands) }
{
    let opening = grid(alloc)?;
    let scripts = scripts(alloc, players, commands)?;
    Some(Case {
        opening,
        scripts,
        seed: 0,
        depth: 15,
    })
}

/// A log for so many players of so many commands each.
#[tactic(auto, using(crate::proofs::CommandLemmas::is_loggable))]
fn blank(alloc: Global, players: u32, commands: u32) -> Option<BlankLog>
    requires { (1 ≤ players) × (players ≤ 64) × (commands ≤ 10000) }
    ensures { IfSome result (λ blank. HasCommands blank.case players commands) }
{
    let case = case(alloc, players, commands)?;
    BlankLog::new(alloc, &case).ok()
}

/// A draw for a player who has one of so many commands left.
#[tactic(auto, using(crate::proofs::CommandLemmas::lines_there))]
fn drawn<N: RunName>(
    log: &Log<N>,
    drawer: &mut Drawer<N>,
    player: u32,
    commands: u32,
) -> Option<Drawn>
    requires { HasCommands N.case 2 commands × (player < 2) }
{
    if drawer.drawn(player) >= commands {
        return None;
    }
    Some(drawer.draw(log, player))
}

/// What three draws answer, and what a snapshot and its copy have seen, early and once they were synchronized.
type Figures = ([Drawn; 3], [u32; 4]);

/// Draws for 1, 0 and 1, with a snapshot made after the first.
fn three_draws<N: RunName>(blank: BlankLog) -> Option<Figures>
    requires { (blank.table ≡ N.table) × (blank.case ≡ N.case) × HasCommands blank.case 2 2 }
{
    let (log, mut drawer) = blank.named::<N>();
    let first = drawn(&log, &mut drawer, 1, 2)?;
    let mut pass = drawer.pass(&log);
    let mut fork = pass.fork(&log);
    let early = [pass.seen(), fork.seen()];
    let second = drawn(&log, &mut drawer, 0, 2)?;
    let third = drawn(&log, &mut drawer, 1, 2)?;
    drawer.meet(&log, &mut pass);
    let met = pass.seen();
    meet(&log, &mut pass, &mut fork);
    Some((
        [first, second, third],
        [early[0], early[1], met, fork.seen()],
    ))
}

fn figures(alloc: Global) -> Option<Figures> {
    three_draws::<Brand>(blank(alloc, 2, 2)?)
}

#[test]
fn log_draws_and_snapshots(rt: HostRuntime) {
    let draws = [
        Drawn { ticket: 0, step: 0 },
        Drawn { ticket: 1, step: 0 },
        Drawn { ticket: 2, step: 1 },
    ];
    assert_eq!(rt; figures(rt.alloc()), Some((draws, [1, 1, 3, 3])));
}

/// Draws 1,000 times for player 0, and brings the shared snapshot up to the order each time.
fn play<N: RunName, R: Wait>(
    rt: &R,
    log: &Log<N>,
    mut drawer: Drawer<N>,
    shared: &Mutex<Pass<N>>,
) -> Option<()>
    requires { HasCommands N.case 2 1000 }
{
    for _ in 0..1000 {
        drawn(log, &mut drawer, 0, 1000)?;
        drawer.meet(log, &mut shared.lock(rt));
    }
    Some(())
}

/// Copies the shared snapshot 1,000 times, and synchronizes its own with the copy.
fn watch<N: RunName, R: Wait>(
    rt: &R,
    log: &Log<N>,
    mut mine: Pass<N>,
    shared: &Mutex<Pass<N>>,
) -> Pass<N> {
    for _ in 0..1000 {
        let mut copy = shared.lock(rt).fork(log);
        meet(log, &mut mine, &mut copy);
    }
    mine
}

/// The snapshots of two threads, of which one has drawn and the other has watched it.
fn both<N: RunName, R: Threads + Wait + Sync>(
    rt: &R,
    log: &Log<N>,
    mut drawer: Drawer<N>,
) -> Option<(Pass<N>, Pass<N>)>
    requires { HasCommands N.case 2 1000 }
    ensures { IfSome result (λ both. both.0 ≡ both.1) }
{
    let mine = drawer.pass(log);
    let shared = Mutex::new(drawer.pass(log));
    let (played, mut mine) = join(
        rt,
        || -> Option<()>
            requires { HasCommands N.case 2 1000 }
        { play(rt, log, drawer, &shared) },
        || -> Pass<N> { watch(rt, log, mine, &shared) },
    );
    played?;
    let mut theirs = shared.into_inner();
    meet(log, &mut theirs, &mut mine);
    Some((theirs, mine))
}

/// How long both snapshots are.
fn both_lengths<N: RunName, R: Threads + Wait + Sync>(rt: &R, blank: BlankLog) -> Option<(u32, u32)>
    requires { (blank.table ≡ N.table) × (blank.case ≡ N.case) × HasCommands blank.case 2 1000 }
{
    let (log, drawer) = blank.named::<N>();
    let (theirs, mine) = both(rt, &log, drawer)?;
    Some((theirs.seen(), mine.seen()))
}

fn lengths<R: Threads + Wait + Sync>(rt: &R, alloc: Global) -> Option<(u32, u32)> {
    both_lengths::<Brand, R>(rt, blank(alloc, 2, 1000)?)
}

#[test]
fn two_threads_have_one_order(rt: HostRuntime) {
    assert_eq!(rt; lengths(&rt, rt.alloc()), Some((1000, 1000)));
}
