//! The high halves of products.

ghost use Rattle.std.specs.Prelude.{◌≡◌, ◌^◌, ◌*◌, ◌/◌, ◌*ℤ◌, pos};
ghost use Rattle.std.specs.Int.{int_shr, w64};
ghost use Rattle.std.specs.Int.RustNames.{FitsSigned};
ghost use Rattle.rv_table.specs.Words.{signed, bits_of};

/// The product of two signed numbers, which always fits.
#[inline]
fn product_of_signed(a: i64, b: i64) -> i128
    ensures { result ≡ a *ℤ b }
{
    i128::from(a) * i128::from(b)
}

/// The product of a signed number and one without a sign.
#[inline]
fn product_of_mixed(a: i64, b: u64) -> i128
    ensures { result ≡ a *ℤ pos b }
{
    i128::from(a) * i128::from(b)
}

/// The high 64 bits of a product.
#[inline]
fn high(product: i128) -> u64
    requires { FitsSigned w64 (int_shr product 64) }
    ensures { result ≡ bits_of (int_shr product 64) }
{
    ((product >> 64) as i64).cast_unsigned()
}

/// The high half of a product of two signed numbers.
#[inline]
pub(crate) fn high_of_signed(a: u64, b: u64) -> u64
    ensures { result ≡ bits_of (int_shr (signed a *ℤ signed b) 64) }
{
    high(product_of_signed(a.cast_signed(), b.cast_signed()))
}

/// The high half of a product of a signed number and one without a sign.
#[inline]
pub(crate) fn high_of_mixed(a: u64, b: u64) -> u64
    ensures { result ≡ bits_of (int_shr (signed a *ℤ pos b) 64) }
{
    high(product_of_mixed(a.cast_signed(), b))
}

/// The high half of a product of two numbers without a sign.
#[inline]
pub(crate) fn high_of_unsigned(a: u64, b: u64) -> u64
    ensures { result ≡ a * b / 2 ^ 64 }
{
    ((u128::from(a) * u128::from(b)) >> 64) as u64
}
