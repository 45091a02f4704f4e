//! Natural numbers of up to 512 bits: eight limbs of 64 bits, the least significant first.
ghost use Rattle.std.specs.Prelude.{◌≡◌, ◌+◌, ◌*◌, ◌/◌, ◌^◌, ◌<◌};
ghost use Rattle.std.specs.Int.{from_bool};
ghost use Rattle.observables.specs.Limbs.{limbs_value};

// The limbs of `n`.
pub(crate) fn limbs_of(n: u128) -> [u64; 8]
    ensures { limbs_value result ≡ n }
{
    let low = (n & 0xFFFF_FFFF_FFFF_FFFF) as u64;
    let high = (n >> 64) as u64;
    [low, high, 0, 0, 0, 0, 0, 0]
}

// The number with these limbs, which must be below 2^128.
pub(crate) fn low_half(limbs: &[u64; 8]) -> u128
    requires { limbs_value limbs.now < 2 ^ 128 }
    ensures { result ≡ limbs_value limbs.now }
{
    u128::from(limbs[0]) + (u128::from(limbs[1]) << 64)
}

// The sum `a + b + carry` without its carry out of 512 bits, and this carry.
pub(crate) fn sum(a: &[u64; 8], b: &[u64; 8], carry: bool) -> ([u64; 8], bool)
    ensures { limbs_value result.0 + from_bool result.1 * 2 ^ 512 ≡ limbs_value a.now + limbs_value b.now + from_bool carry }
{
    let mut sum = [0; 8];
    let mut over = carry;
    for i in 0..8 {
        let (limb, next) = a[i].carrying_add(b[i], over);
        sum[i] = limb;
        over = next;
    }
    (sum, over)
}

// The difference `a - b - borrow` modulo 2^512, and whether it borrows from beyond 512 bits.
pub(crate) fn difference(a: &[u64; 8], b: &[u64; 8], borrow: bool) -> ([u64; 8], bool)
    ensures value { limbs_value result.0 + limbs_value b.now + from_bool borrow ≡ limbs_value a.now + from_bool result.1 * 2 ^ 512 }
    ensures below { limbs_value result.0 < 2 ^ 512 }
{
    let mut rest = [0; 8];
    let mut under = borrow;
    for i in 0..8 {
        let (limb, next) = a[i].borrowing_sub(b[i], under);
        rest[i] = limb;
        under = next;
    }
    (rest, under)
}

// The product `a factor + carry` modulo 2^512, and the limb that it carries out of 512 bits.
pub(crate) fn product(a: &[u64; 8], factor: u64, carry: u64) -> ([u64; 8], u64)
    ensures { limbs_value result.0 + result.1 * 2 ^ 512 ≡ limbs_value a.now * factor + carry }
{
    let mut product = [0; 8];
    let mut over = carry;
    for i in 0..8 {
        let (limb, next) = a[i].carrying_mul(factor, over);
        product[i] = limb;
        over = next;
    }
    (product, over)
}

// One step of a long division: the quotient and the remainder of `rest 2^64 + limb` by the divisor. The remainder
// `rest` of the higher limbs must be below the divisor.
fn quotient_limb(rest: u64, limb: u64, divisor: u64) -> (u64, u64)
    requires { rest < divisor }
    ensures value { result.0 * divisor + result.1 ≡ rest * 2 ^ 64 + limb }
    ensures below { result.1 < divisor }
{
    let wide = (u128::from(rest) << 64) + u128::from(limb);
    let divisor = u128::from(divisor);
    ((wide / divisor) as u64, (wide % divisor) as u64)
}

// The number divided by the divisor, rounded down. The divisor must not be 0.
pub(crate) fn quotient(a: &[u64; 8], divisor: u64) -> [u64; 8]
    requires { 0 < divisor }
    ensures { limbs_value result ≡ limbs_value a.now / divisor }
{
    let mut quotient = [0; 8];
    let mut rest = 0;
    for i in (0..8).rev() {
        let (limb, next) = quotient_limb(rest, a[i], divisor);
        quotient[i] = limb;
        rest = next;
    }
    quotient
}
