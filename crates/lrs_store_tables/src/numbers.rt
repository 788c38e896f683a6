//! Numbers of stored rows.

ghost use Rattle.std.specs.Prelude.{◌≡◌};
ghost use Rattle.lrs_store_tables.specs.Contents.Decoders as decoding;

/// A number that is not negative.
pub fn whole(n: i64) -> Option<u64>
    ensures { result ≡ decoding.whole n }
{
    if n < 0 { None } else { Some(n as u64) }
}

/// A number of 32 bits.
pub fn short(n: i64) -> Option<u32>
    ensures { result ≡ decoding.short n }
{
    if n < 0 || n > 4_294_967_295 {
        return None;
    }
    Some(n as u32)
}
