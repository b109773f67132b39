//! What every row goes through.
use anyhow::Result;
use std::alloc::Global;

/// What a row sets up, and its call.
pub trait Scene<R> {
    /// What the call returns.
    type Answer: Drop;

    /// Makes the call: for the first time at turn 0.
    fn call(&mut self, rt: &R, alloc: Global, turn: u8) -> Self::Answer;

    /// Prints what a call has returned.
    fn print(&mut self, rt: &R, alloc: Global, answer: Self::Answer) -> Result<()>;

    /// Prints all that stands.
    fn show(&mut self, rt: &R, alloc: Global) -> Result<()>;
}

/// Makes the call so many times, prints each answer, and then all that stands.
pub fn play<R: Print, S: Scene<R>>(rt: &R, alloc: Global, scene: &mut S, calls: u8) -> Result<()> {
    println!(rt; "made")?;
    if calls == 0 {
        println!(rt; "done")?;
        return scene.show(rt, alloc);
    }
    let answer = scene.call(rt, alloc, 0);
    println!(rt; "done")?;
    scene.print(rt, alloc, answer)?;
    for turn in 1..calls {
        let answer = scene.call(rt, alloc, turn);
        scene.print(rt, alloc, answer)?;
    }
    scene.show(rt, alloc)
}
