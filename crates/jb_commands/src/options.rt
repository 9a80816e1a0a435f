ghost use Rattle.std.specs.Prelude.{◌≡◌, ◌↔◌, ◌+◌, ◌*◌, ◌^◌, ◌<◌, length, IsSome, IfErr, IfOk, IfSome, IsTrue, Ok};
ghost use Rattle.std.specs.List.{AllPass};
ghost use Rattle.hex.specs.Hex.{decode_of, is_hex_digit};
ghost use Rattle.jb_block.specs.Size.{bytes_of, IsBlockSize};
ghost use Rattle.jb_block.specs.Width.{is_wide};
ghost use Rattle.jb_image.specs.Create.{is_sparse};
ghost use Rattle.jb_args.specs.PlainCommand.{options_said};
ghost use Rattle.jb_commands.specs.Options.{AreGood, IsAskedBy, IsFirstBad};

use hex::FromHex;
use jb_args::{FormatOptions, OptionName};
use jb_block::{BlockSize, Width};
use jb_image::{Allocation, ImageGeometry};

/// The image that the options ask for.
///
/// # Errors
/// The first option that is bad, in this order: `--bs` is not 1024, 2048 or 4096; `--journal` or `--max` is
/// above 2^32 - 1; `--uuid` is not 32 hexadecimal digits; or with `--homes` the file has 2^63 bytes or more, or
/// without `--wide` more home blocks than 32 bits number.
pub(crate) fn new_file(options: FormatOptions<'_>) -> Result<ImageGeometry, OptionName>
    ensures good { IfOk result (λ _. AreGood (options_said options.entry)) }
    ensures asked { IfOk result (IsAskedBy (options_said options.entry)) }
    ensures bad { IfErr result (λ option. IsFirstBad (options_said options.entry) option) }
{
    let Some(size) = size_of(options.bs) else {
        return Err(OptionName::Bs);
    };
    let Some(journal) = word_of(options.journal) else {
        return Err(OptionName::Journal);
    };
    let Some(max) = word_of(options.max) else {
        return Err(OptionName::Max);
    };
    let Some(uuid) = uuid_of(options.uuid) else {
        return Err(OptionName::Uuid);
    };
    if !is_file_len(options.journal, options.homes, options.bs) {
        return Err(OptionName::Homes);
    }
    if !options.wide && options.homes > 1 << 32 {
        return Err(OptionName::Homes);
    }
    Ok(ImageGeometry {
        block_size: size,
        journal,
        homes: options.homes,
        max_transaction: max,
        uuid,
        width: width_of(options.wide),
        allocation: allocation_of(options.sparse),
    })
}

/// The block size of this many bytes.
fn size_of(bs: u64) -> Option<BlockSize>
    ensures good { IsSome result ↔ IsBlockSize bs }
    ensures value { IfSome result (λ size. bytes_of size ≡ bs) }
{
    match bs {
        1024 => Some(BlockSize::OneKib),
        2048 => Some(BlockSize::TwoKib),
        4096 => Some(BlockSize::FourKib),
        _ => None,
    }
}

/// A number as a field of 32 bits holds it.
fn word_of(number: u64) -> Option<u32>
    ensures good { IsSome result ↔ (number < 2 ^ 32) }
    ensures value { IfSome result (λ word. word ≡ number) }
{
    u32::try_from(number).ok()
}

/// The UUID in these digits.
fn uuid_of(digits: &str) -> Option<[u8; 16]>
    ensures good { IsSome result ↔ ((length digits.now ≡ 32) × AllPass is_hex_digit digits.now) }
    ensures value { IfSome result (λ uuid. decode_of digits.now ≡ Ok uuid) }
{
    <[u8; 16] as FromHex>::from_hex(digits).ok()
}

/// The width of block numbers, as `--wide` asks for it.
fn width_of(wide: bool) -> Width
    ensures { is_wide result ≡ wide }
{
    if wide { Width::Wide } else { Width::Narrow }
}

/// When the blocks of a new file get room, as `--sparse` asks for it.
fn allocation_of(sparse: bool) -> Allocation
    ensures { is_sparse result ≡ sparse }
{
    if sparse {
        Allocation::Sparse
    } else {
        Allocation::Whole
    }
}

/// Whether a file may have as many bytes as this many blocks of journal and homes.
fn is_file_len(journal: u64, homes: u64, bs: u64) -> bool
    ensures { IsTrue result ↔ ((journal + homes) * bs < 2 ^ 63) }
{
    let len = (u128::from(journal) + u128::from(homes)).checked_mul(u128::from(bs));
    matches!(len, Some(len) if len < 1 << 63)
}
