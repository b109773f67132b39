//! Seats that are retired.
ghost use Rattle.std.specs.Prelude.{◌≡◌};

use crate::tests::commands::{Bar, DIFFUSION, POLY};
use crate::tests::stages::Stage;
use mls_live::{Naming, Retired, Seat};
use mls_session::Command;
use std::process::Abort;
use std::sync::Wait;
use std::test::Fail;

/// What a seat draws, how many squares are then forbidden, and how many commands are journalled with a catching up and
/// a count.
struct Drawing {
    name: &'static [u8],
    poly: &'static [[i32; 4]],
    diffusion: &'static [[i32; 4]],
    errors: u64,
    entries: usize,
}

/// A thin bar; two bars too close; two squares too close by their corners; poly beside diffusion.
const DRAWINGS: [Drawing; 4] = [
    Drawing {
        name: b"a",
        poly: &[[0, 0, 1, 10]],
        diffusion: &[],
        errors: 10,
        entries: 4,
    },
    Drawing {
        name: b"b",
        poly: &[[0, 0, 2, 10], [4, 0, 6, 10]],
        diffusion: &[],
        errors: 20,
        entries: 6,
    },
    Drawing {
        name: b"c",
        poly: &[[0, 0, 2, 2], [3, 3, 5, 5]],
        diffusion: &[],
        errors: 8,
        entries: 6,
    },
    Drawing {
        name: b"d",
        poly: &[[0, 0, 2, 4]],
        diffusion: &[[2, 0, 4, 4]],
        errors: 4,
        entries: 6,
    },
];

/// Four seats draw, catch up and count, and are retired two by two.
pub fn retire_four<N: Naming, R: Wait + Abort>(stage: &Stage<'_, N, R>) -> Result<(), Fail>
    requires { N.parts ≡ 65 }
{
    let [a, b, c, d] = &DRAWINGS;
    let first = both_drawn(stage, [a, b])?;
    let last = both_drawn(stage, [c, d])?;
    expect_retired(stage, first, 10, 2);
    expect_retired(stage, last, 22, 0);
    Ok(())
}

/// Opens sessions for two drawings.
fn both_drawn<'s, N: Naming, R: Wait + Abort>(
    stage: &Stage<'s, N, R>,
    drawings: [&Drawing; 2],
) -> Result<Vec<Seat<'s, N>>, Fail> {
    let mut seats = Vec::new(stage.alloc);
    for drawing in drawings {
        seats.push(drawn(stage, drawing)?)?;
    }
    Ok(seats)
}

/// Opens a session for a drawing, and returns its seat once the squares are counted and the list is audited.
fn drawn<'s, N: Naming, R: Wait + Abort>(
    stage: &Stage<'s, N, R>,
    drawing: &Drawing,
) -> Result<Seat<'s, N>, Fail> {
    let mut seat = stage.seat(drawing.name)?;
    paint(stage, &mut seat, drawing.poly, POLY);
    paint(stage, &mut seat, drawing.diffusion, DIFFUSION);
    stage.expect_done(&mut seat, Command::CatchUp);
    stage.expect_count(&mut seat, drawing.errors, 0);
    stage.expect_audited(&seat, drawing.entries);
    Ok(seat)
}

/// Paints rectangles with a type.
fn paint<N: Naming, R: Wait + Abort>(
    stage: &Stage<'_, N, R>,
    seat: &mut Seat<'_, N>,
    rectangles: &[[i32; 4]],
    kind: u8,
) {
    for sides in rectangles {
        stage.expect_painted(
            seat,
            Bar {
                sides: *sides,
                kind,
            },
        );
    }
}

/// Asserts how many commands are listed, of the 22 that are journalled, and how many seats are out.
fn expect_retired<N: Naming, R: Wait + Abort>(
    stage: &Stage<'_, N, R>,
    seats: Vec<Seat<'_, N>>,
    listed: u128,
    out: u64,
)
    requires { N.parts ≡ 65 }
{
    let wanted = Retired {
        entries: 22,
        listed,
        out,
    };
    assert_eq!(stage.rt; stage.retire(seats), wanted);
}
