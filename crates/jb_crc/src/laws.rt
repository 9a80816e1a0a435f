//! Laws of the checksum, each the contract of a function that does nothing.

ghost use Rattle.jb_crc.specs.Laws.{TakesPieces, HasCheckValue, SeesOneByte};

/// The checksum is CRC-32C, by its check value: that of `123456789` is 0xE3069283, where it is begun with
/// ones and inverted at the end.
pub fn has_check_value()
    /// The checksum is CRC-32C, by its check value.
    ensures { HasCheckValue }
{}

/// Bytes may be given in pieces: a piece is begun with the checksum of those before it.
pub fn takes_pieces()
    /// Bytes may be given in pieces.
    ensures { TakesPieces }
{}

/// One changed byte changes the checksum, wherever the byte is and whatever it becomes.
pub fn sees_one_byte()
    /// One changed byte changes it.
    ensures { SeesOneByte }
{}
