//! Laws over the definitions alone. Their functions do nothing: the law is the contract.
ghost use Rattle.jb_handle.specs.declared.shape.Shape.{Shape};
ghost use Rattle.jb_core.specs.Machine.{Machine};
ghost use Rattle.jb_core.specs.Lives.{EventLog};
ghost use Rattle.jb_core.specs.MachineRuns.{RanFromStart};
ghost use Rattle.jb_core.specs.SeatLaw.{SeatsAreMap};
ghost use Rattle.jb_core.specs.Sound.{IsMachineSound};

/// Every machine that a run reaches is sound: each handle is within the most credits and the shape, what is reserved
/// is within the largest log, and the tickets of the current life are 0 up to the next one.
#[tactic(auto, using(crate::proofs::SoundRuns::sounds))]
pub fn sound()
    /// Every machine that a run reaches is sound.
    ensures { (shape : Shape) (log : EventLog) (m : Machine) → RanFromStart shape log m → IsMachineSound m }
{}

/// The words on seats are those of a finite map: after a seat was set, changed or dropped it holds that, and every
/// other one what it held. A machine that a run reaches lists each seat once, as a drop needs it.
#[tactic(auto, using(crate::proofs::SeatMap::seats_are_map))]
pub fn seats()
    /// The open handles, and a book's credits, are a finite map from seats; a machine that a run reaches lists each
    /// seat once.
    ensures { SeatsAreMap }
{}
