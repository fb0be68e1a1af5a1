//! Numbers as words.

ghost use Rattle.std.specs.Prelude.{◌≡◌, ◌*◌, ◌%◌, ◌/◌, ◌^◌, ◌<◌, pos, negsuc};
ghost use Rattle.tp_words.specs.Words.{low_word};

/// A number as a word.
pub(crate) fn low_word(n: i32) -> u32
    ensures { result ≡ low_word n }
{
    n.cast_unsigned()
}

/// The low 32 bits of an address.
pub(crate) fn low_address(at: i64) -> u32
    ensures { result ≡ low_word at }
{
    (at.cast_unsigned() % (1 << 32)) as u32
}
