//! What a crash may leave of the sectors that were written since the last sync: a version for each.

/// More sectors than a recovery of an image here has pending.
pub const SECTORS: usize = 32;

/// How many mixtures are tried where they are too many.
pub const SOME: u32 = 136;

/// The versions of the sectors as the digits of a number.
pub fn digits(number: u32, versions: u32) -> [u32; SECTORS] {
    let mut choice = [0; SECTORS];
    let mut rest = number;
    for place in &mut choice {
        if versions > 1 {
            *place = rest % versions;
            rest /= versions;
        }
    }
    choice
}

/// Old and new by the bits of a generator's numbers.
fn seeded(seed: u32) -> [u32; SECTORS] {
    let mut choice = [0; SECTORS];
    let mut state = seed;
    for place in &mut choice {
        state = state.wrapping_mul(1_664_525).wrapping_add(1_013_904_223);
        *place = (state >> 16) % 2;
    }
    choice
}

/// Of too many mixtures the one of this number: all old, all new, old and new in turn and the other way, one sector
/// new, or one of a hundred by a generator.
pub fn some_choice(number: u32) -> [u32; SECTORS] {
    match number {
        0 => digits(0, 2),
        1 => digits(0xFFFF_FFFF, 2),
        2 => digits(0x5555_5555, 2),
        3 => digits(0xAAAA_AAAA, 2),
        4..=35 => digits(1 << (number - 4), 2),
        _ => seeded(number.saturating_sub(36)),
    }
}
