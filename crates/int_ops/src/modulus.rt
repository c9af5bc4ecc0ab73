//! Numbers modulo 2^bits: into the signed range, and read without a sign.

ghost use Rattle.std.specs.Prelude.{◌≡◌};
ghost use Rattle.int_ops.specs.Wrapped.{IsWidth, IsWithinProducts, wrapped, unsigned};

/// The number of the signed range that is equal to `value` modulo 2^bits.
pub fn wrap(bits: u32, value: i128) -> i64
    requires width { IsWidth bits }
    requires small { IsWithinProducts value }
    ensures { result ≡ wrapped bits value }
{
    let size = 2i128.pow(bits);
    let half = 2i128.pow(bits - 1);
    ((value + half).rem_euclid(size) - half) as i64
}

/// The number modulo 2^bits, from 0 up.
pub fn read_unsigned(bits: u32, value: i64) -> u64
    requires { IsWidth bits }
    ensures { result ≡ unsigned bits value }
{
    let size = 2i128.pow(bits);
    (value as i128).rem_euclid(size) as u64
}
