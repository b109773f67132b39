//! Findings that come back to a server after its sessions have changed.
use crate::tests::servers::{
    cell_named, close, command, finish, finish_ref, found, new_server, open, stocked_server,
};
use mls_checker::Finding;
use mls_errorplane::Outcome;
use mls_geom::Rect;
use mls_kinds::{Kind, KindSet};
use mls_server::{NotOpen, Server, SessionId};
use mls_session::{Command, Reply};
use mls_tech::TECHNOLOGY_M;
use std::alloc::Global;
use std::process::Abort;
use std::test::Fail;

/// The number of poly and of metal in technology M.
const POLY: u8 = 1;

const METAL: u8 = 3;

/// Paints a rectangle of poly or metal, and returns the last reply.
fn paint(
    alloc: Global,
    server: &mut Server,
    id: SessionId,
    left: i32,
    right: i32,
    top: i32,
    kind: u8,
) -> Result<Reply, NotOpen> {
    let set = Command::Box {
        left,
        bottom: 0,
        right,
        top,
    };
    command(alloc, server, id, set)?;
    command(alloc, server, id, Command::Paint(Some(Kind::new(kind))))
}

/// Asserts that a command was carried out.
fn expect_done(rt: &impl Abort, replied: Result<Reply, NotOpen>) {
    assert_eq!(rt; replied, Ok(Reply::Done));
}

/// Asserts how finishing ended.
fn expect_outcome(rt: &impl Abort, finished: Result<Outcome, NotOpen>, outcome: Outcome) {
    assert_eq!(rt; finished, Ok(outcome));
}

/// Asserts what a session counts.
fn expect_count(
    rt: &impl Abort,
    alloc: Global,
    server: &mut Server,
    id: SessionId,
    errors: u64,
    pending: usize,
) {
    let counted = command(alloc, server, id, Command::Count);
    assert_eq!(rt; counted, Ok(Reply::Count { errors, pending }));
}

/// Opens a session, and paints a bar in it.
fn open_with_bar(
    rt: &impl Abort,
    alloc: Global,
    server: &mut Server,
    name: &[u8],
    kind: u8,
) -> SessionId {
    let id = open(alloc, server, name);
    expect_done(rt, paint(alloc, server, id, 0, 1, 10, kind));
    id
}

/// Opens a session, paints a bar of poly in it, and checks its first piece.
fn found_in_bar(
    rt: &impl Abort,
    alloc: Global,
    server: &mut Server,
    name: &[u8],
) -> Result<(SessionId, Finding), Fail> {
    let id = open_with_bar(rt, alloc, server, name, POLY);
    let finding = found(alloc, server, id).ok_or("no finding")?;
    Ok((id, finding))
}

/// Asserts that a session's areas are checked with no square marked.
fn expect_caught_up(rt: &impl Abort, alloc: Global, server: &mut Server, id: SessionId) {
    expect_done(rt, command(alloc, server, id, Command::CatchUp));
    expect_count(rt, alloc, server, id, 0, 0);
}

/// The layout changes in the zone of the finding.
fn expect_stale(rt: &impl Abort, alloc: Global, server: &mut Server) -> Result<(), Fail> {
    let (id, finding) = found_in_bar(rt, alloc, server, b"a")?;
    assert_eq!(rt; Ok(finding.piece()), Rect::new(-4, -4, 5, 14));
    expect_done(rt, paint(alloc, server, id, 1, 2, 10, POLY));
    expect_outcome(rt, finish(server, id, finding), Outcome::Stale);
    expect_count(rt, alloc, server, id, 0, 2);
    expect_caught_up(rt, alloc, server, id);
    Ok(())
}

/// Asserts that a finding is marked once.
fn expect_finished_once(
    rt: &impl Abort,
    alloc: Global,
    server: &mut Server,
    id: SessionId,
    finding: &Finding,
) {
    expect_outcome(rt, finish_ref(server, id, finding), Outcome::Finished);
    expect_count(rt, alloc, server, id, 10, 1);
    expect_outcome(rt, finish_ref(server, id, finding), Outcome::Stale);
    expect_count(rt, alloc, server, id, 10, 1);
}

/// It changes elsewhere, and the finding comes back three times.
fn expect_finished(rt: &impl Abort, alloc: Global, server: &mut Server) -> Result<(), Fail> {
    let (id, finding) = found_in_bar(rt, alloc, server, b"b")?;
    expect_done(rt, paint(alloc, server, id, 1000, 1002, 2, POLY));
    expect_finished_once(rt, alloc, server, id, &finding);
    assert_eq!(rt; close(server, id), Ok(()));
    assert_eq!(rt; finish(server, id, finding), Err(NotOpen));
    Ok(())
}

/// A server with technology M.
fn usual_server(alloc: Global) -> Result<Server, Fail> {
    new_server(alloc, TECHNOLOGY_M)
}

#[test]
fn findings_of_a_layout_that_changes(rt: HostRuntime) -> Result<(), Fail> {
    let mut server = usual_server(rt.alloc())?;
    expect_stale(&rt, rt.alloc(), &mut server)?;
    expect_finished(&rt, rt.alloc(), &mut server)
}

/// Asserts that a finding is stale in an empty layout, and in one of metal.
fn expect_stale_in_others(rt: &impl Abort, alloc: Global, server: &mut Server, finding: &Finding) {
    let empty = open(alloc, server, b"empty");
    expect_outcome(rt, finish_ref(server, empty, finding), Outcome::Stale);
    let metal = open_with_bar(rt, alloc, server, b"metal", METAL);
    expect_outcome(rt, finish_ref(server, metal, finding), Outcome::Stale);
    expect_count(rt, alloc, server, metal, 0, 1);
}

/// Asserts that a finding is marked once in a session with the same layout.
fn expect_finished_in_same(rt: &impl Abort, alloc: Global, server: &mut Server, finding: Finding) {
    let same = open_with_bar(rt, alloc, server, b"same", POLY);
    expect_outcome(rt, finish_ref(server, same, &finding), Outcome::Finished);
    expect_count(rt, alloc, server, same, 10, 0);
    expect_outcome(rt, finish(server, same, finding), Outcome::Stale);
    expect_count(rt, alloc, server, same, 10, 0);
}

/// A finding of one session is judged in another by what that one shows.
fn expect_strangers(rt: &impl Abort, alloc: Global, server: &mut Server) -> Result<(), Fail> {
    let (own, finding) = found_in_bar(rt, alloc, server, b"own")?;
    expect_stale_in_others(rt, alloc, server, &finding);
    expect_finished_in_same(rt, alloc, server, finding);
    expect_count(rt, alloc, server, own, 0, 1);
    Ok(())
}

#[test]
fn findings_of_other_sessions(rt: HostRuntime) -> Result<(), Fail> {
    let mut server = usual_server(rt.alloc())?;
    expect_strangers(&rt, rt.alloc(), &mut server)
}

/// Asserts that a finding is stale in a session with the bar that it was made for.
fn expect_stale_in_same(rt: &impl Abort, alloc: Global, server: &mut Server, finding: Finding) {
    let same = open_with_bar(rt, alloc, server, b"same", POLY);
    expect_outcome(rt, finish(server, same, finding), Outcome::Stale);
    expect_count(rt, alloc, server, same, 0, 1);
}

/// Rules other than those of technology M, with its planes and types and the same halo.
const OTHER_RULES: &[u8] = b"planes\nactive\nmetal1\nend\n\
    types\nactive poly\nactive ndiff\nmetal1 m1\nend\n\
    drc\nwidth poly 3 \"poly width\"\nend\n";

/// Returns what is found in the bar and the halo round it.
fn found_round_bar(rt: &impl Abort, alloc: Global, server: &mut Server) -> Result<Finding, Fail> {
    let (_, finding) = found_in_bar(rt, alloc, server, b"other")?;
    assert_eq!(rt; Ok(finding.piece()), Rect::new(-4, -4, 5, 14));
    Ok(finding)
}

/// Returns what a server with other rules finds in the bar.
fn found_under_other_rules(rt: &impl Abort, alloc: Global) -> Result<Finding, Fail> {
    let mut other = new_server(alloc, OTHER_RULES)?;
    found_round_bar(rt, alloc, &mut other)
}

/// Asserts that what a server with other rules finds in the bar is stale.
fn expect_stale_rules(rt: &impl Abort, alloc: Global, server: &mut Server) -> Result<(), Fail> {
    let finding = found_under_other_rules(rt, alloc)?;
    expect_stale_in_same(rt, alloc, server, finding);
    Ok(())
}

#[test]
fn finding_under_other_rules(rt: HostRuntime) -> Result<(), Fail> {
    let mut server = usual_server(rt.alloc())?;
    expect_stale_rules(&rt, rt.alloc(), &mut server)
}

/// Returns what is found in a part of the bar, once the whole of it has been checked.
fn found_in_part(rt: &impl Abort, alloc: Global, server: &mut Server) -> Result<Finding, Fail> {
    let id = open_with_bar(rt, alloc, server, b"part", POLY);
    expect_done(rt, command(alloc, server, id, Command::CatchUp));
    let set = Command::Box {
        left: 0,
        bottom: 0,
        right: 1,
        top: 1,
    };
    expect_done(rt, command(alloc, server, id, set));
    expect_done(rt, command(alloc, server, id, Command::Check));
    let finding = found(alloc, server, id).ok_or("no finding")?;
    assert_eq!(rt; Ok(finding.piece()), Rect::new(-4, -4, 5, 5));
    Ok(finding)
}

/// Asserts that what is found in a part of the bar is stale in the whole of it.
fn expect_stale_part(rt: &impl Abort, alloc: Global, server: &mut Server) -> Result<(), Fail> {
    let finding = found_in_part(rt, alloc, server)?;
    expect_stale_in_same(rt, alloc, server, finding);
    Ok(())
}

#[test]
fn finding_of_a_smaller_piece(rt: HostRuntime) -> Result<(), Fail> {
    let mut server = usual_server(rt.alloc())?;
    expect_stale_part(&rt, rt.alloc(), &mut server)
}

/// Asserts that a finding is marked where its zone was painted and erased back meanwhile.
fn expect_finished_after_erasing(
    rt: &impl Abort,
    alloc: Global,
    server: &mut Server,
) -> Result<(), Fail> {
    let (id, finding) = found_in_bar(rt, alloc, server, b"a")?;
    expect_done(rt, paint(alloc, server, id, 2, 4, 10, POLY));
    let erase = Command::Erase(Some(KindSet::single(Kind::new(POLY))));
    expect_done(rt, command(alloc, server, id, erase));
    expect_outcome(rt, finish(server, id, finding), Outcome::Finished);
    expect_count(rt, alloc, server, id, 10, 2);
    Ok(())
}

#[test]
fn finding_of_a_zone_that_was_erased_back(rt: HostRuntime) -> Result<(), Fail> {
    let mut server = usual_server(rt.alloc())?;
    expect_finished_after_erasing(&rt, rt.alloc(), &mut server)
}

/// The name of the cell that is placed, and its file: two overlapping rectangles on two planes.
const NAME: &[u8] = b"c";

const CELL: &[u8] =
    b"magic\ntech M\ntimestamp 7\n<< poly >>\nrect 0 0 2 4\n<< m1 >>\nrect 1 0 4 3\n<< end >>\n";

/// Places the cell of 4 by 4 squares so far to the right.
fn place(alloc: Global, server: &mut Server, id: SessionId, dx: i32) -> Result<Reply, NotOpen> {
    let cell = cell_named(server, NAME);
    command(alloc, server, id, Command::GetCell { cell, dx, dy: 0 })
}

/// A session with the bar, in which a cell is placed so far to the right while the bar is checked; how finishing ends,
/// the squares that are marked then, and the areas that are left.
#[derive(Clone, Copy)]
struct PlacedMeanwhile {
    name: &'static [u8],
    dx: i32,
    outcome: Outcome,
    errors: u64,
    pending: usize,
}

const PLACED: &[PlacedMeanwhile] = &[
    // In the middle of the zone, in its last column, beside it, and far away.
    PlacedMeanwhile {
        name: b"in",
        dx: 0,
        outcome: Outcome::Stale,
        errors: 0,
        pending: 2,
    },
    PlacedMeanwhile {
        name: b"last",
        dx: 8,
        outcome: Outcome::Stale,
        errors: 0,
        pending: 2,
    },
    PlacedMeanwhile {
        name: b"beside",
        dx: 9,
        outcome: Outcome::Finished,
        errors: 10,
        pending: 1,
    },
    PlacedMeanwhile {
        name: b"far",
        dx: 1000,
        outcome: Outcome::Finished,
        errors: 10,
        pending: 1,
    },
];

/// Asserts how finishing ends where a cell was placed meanwhile.
fn expect_judged(
    rt: &impl Abort,
    alloc: Global,
    server: &mut Server,
    row: &PlacedMeanwhile,
) -> Result<(), Fail> {
    let (id, finding) = found_in_bar(rt, alloc, server, row.name)?;
    expect_done(rt, place(alloc, server, id, row.dx));
    expect_outcome(rt, finish(server, id, finding), row.outcome);
    expect_count(rt, alloc, server, id, row.errors, row.pending);
    Ok(())
}

/// Asserts that a finding is marked where its cell was placed once more at its place, which shows nothing new.
fn expect_finished_below(rt: &impl Abort, alloc: Global, server: &mut Server) -> Result<(), Fail> {
    let id = open(alloc, server, b"twice");
    expect_done(rt, place(alloc, server, id, 0));
    let finding = found(alloc, server, id).ok_or("no finding")?;
    expect_done(rt, place(alloc, server, id, 0));
    expect_outcome(rt, finish(server, id, finding), Outcome::Finished);
    expect_count(rt, alloc, server, id, 0, 1);
    Ok(())
}

/// Asserts how finishing ends where cells are placed.
fn expect_placed(rt: &impl Abort, alloc: Global, server: &mut Server) -> Result<(), Fail> {
    for row in PLACED {
        expect_judged(rt, alloc, server, row)?;
    }
    expect_finished_below(rt, alloc, server)
}

#[test]
fn findings_beside_placed_cells(rt: HostRuntime) -> Result<(), Fail> {
    let mut server = stocked_server(rt.alloc(), NAME, CELL)?;
    expect_placed(&rt, rt.alloc(), &mut server)
}
