//! Where memory may be refused, and how a row met that.
use jb_block::Memory;
use std::fs::File;
use std::rt::Files;

/// How a row met refused memory, where all that it compares is as it must be.
#[derive(Clone, Copy, PartialEq, Eq)]
pub enum Met {
    /// The first call answered as with ample memory.
    Ample,
    /// The first call answered that memory ran out, and the second one as with ample memory.
    Memory,
    /// The disk in memory failed a call for want of memory, and the first call answered so; what must be kept then
    /// is kept.
    Fault,
}

/// From here on an allocation may be refused: what runs the program sees the path.
pub fn refusing(rt: &impl Files<File = File>) {
    let _seen = File::open(rt, "/refuse/on");
}

/// From here on none is.
pub fn ample(rt: &impl Files<File = File>) {
    let _seen = File::open(rt, "/refuse/off");
}

/// How a row met refused memory, where all that it compares holds.
pub fn met_if(holds: bool, met: Met) -> Option<Met> {
    if holds { Some(met) } else { None }
}

/// Makes a call where memory may be refused, and once more where it answers that memory ran out. The call says whether
/// all is as it must be. None where it is not.
pub fn tried<R: Files<File = File>, F: FnMut() -> Result<bool, Memory>>(
    rt: &R,
    mut call: F,
) -> Option<Met>
    requires { F.IsAlwaysCallable call }
{
    refusing(rt);
    let first = call();
    ample(rt);
    let (met, found) = match first {
        Ok(_) => (Met::Ample, first),
        Err(_) => (Met::Memory, call()),
    };
    met_if(matches!(found, Ok(true)), met)
}
