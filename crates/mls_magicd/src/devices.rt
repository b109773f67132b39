//! The devices of the program.
use mls_lines::Watched;

/// Where the program reads its script, and where it writes.
#[derive(Drop)]
pub struct Devices<R, W, E> {
    /// The script.
    pub input: Watched<R>,
    /// The replies.
    pub output: Watched<W>,
    /// The messages, and nothing else.
    pub faults: Watched<E>,
}

impl<R, W, E> Devices<R, W, E> {
    ghost use Rattle.std.specs.Prelude.{◌≡◌, false};

    /// Creates the devices of a program, none of whose calls has failed.
    pub fn new(input: R, output: W, faults: E) -> Devices<R, W, E>
        ensures input { (result.input.device ≡ input) × (result.input.failed ≡ false) }
        ensures output { (result.output.device ≡ output) × (result.output.failed ≡ false) }
        ensures faults { (result.faults.device ≡ faults) × (result.faults.failed ≡ false) }
    {
        Devices {
            input: Watched::new(input),
            output: Watched::new(output),
            faults: Watched::new(faults),
        }
    }
}
