//! Laws over the definitions alone. Their functions do nothing: the law is the contract.

ghost use Rattle.jb_commands.specs.Limits.{PlansAreReadable, PlansAreWithin};

/// What `jb plan` writes for a queue text of at most 16,777,216 bytes has at most nine times as many bytes as the text:
/// a handle is 2 bytes of the text or more, and adds one price and one bound at most, each a space and up to 8 digits.
/// So `jb check`, which reads certificates of at most 150,994,944 bytes, can read each of them.
pub fn plans_are_within()
    /// With `readable`: What `plan` prints for a queue text within its limit has at most nine times the bytes of the
    /// text, and is within the limit of a certificate.
    ensures nine { PlansAreWithin }
    ensures readable { PlansAreReadable }
{}
