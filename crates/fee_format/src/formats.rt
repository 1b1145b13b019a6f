// The formats of an image.
ghost use Rattle.std.specs.Prelude.{◌≡◌};
ghost use Rattle.fee_format.specs.Formats.{is_format};

/// The format of banks whose records have no count of writes. Its banks are read, and nothing is appended to them.
pub const OLD_FORMAT: u8 = 1;

/// The format that is written: each record has the count of the writes of its instance.
pub const NEW_FORMAT: u8 = 2;

pub(crate) fn is_format(format: u8) -> bool
    ensures { result ≡ is_format format }
{
    format == OLD_FORMAT || format == NEW_FORMAT
}
