ghost use Rattle.std.specs.Prelude.{◌≡◌, ◌^◌, ◌<◌};
ghost use Rattle.bern_base.specs.Ring.{ring_add, ring_sub, ring_mul, ring_neg, ring_of, signed_of};

use std::marker::Model;

/// A value: a whole number modulo 2^64.
#[derive(Clone, Copy, Debug, PartialEq, Eq)]
pub struct Val(u64);

impl Model for Val {
    ghost use Rattle.std.specs.Prelude.{ℕ};

    ghost Value = { ℕ };

    ghost view = { λ v. v.0 };

    ghost inverse = { λ n. record { 0 = n } };
}

impl Val {
    /// The value that these bits stand for.
    pub fn new(bits: u64) -> Val
        ensures { result ≡ bits }
    {
        Val(bits)
    }

    /// The representative from 0 to 2^64 - 1.
    pub fn bits(self) -> u64
        ensures bits { result ≡ self }
        ensures fits { self < 2 ^ 64 }
    {
        self.0
    }

    /// The value of a whole number.
    pub fn from_i128(v: i128) -> Val
        ensures { result ≡ ring_of v }
    {
        Val((v.rem_euclid(1 << 64)) as u64)
    }

    /// The representative from -2^63 to 2^63 - 1.
    pub fn signed(self) -> i64
        ensures { result ≡ signed_of self }
    {
        self.0.cast_signed()
    }

    pub fn add(self, o: Val) -> Val
        ensures { result ≡ ring_add self o }
    {
        Val(self.0.wrapping_add(o.0))
    }

    pub fn sub(self, o: Val) -> Val
        ensures { result ≡ ring_sub self o }
    {
        Val(self.0.wrapping_sub(o.0))
    }

    pub fn mul(self, o: Val) -> Val
        ensures { result ≡ ring_mul self o }
    {
        Val(self.0.wrapping_mul(o.0))
    }

    pub fn neg(self) -> Val
        ensures { result ≡ ring_neg self }
    {
        Val(self.0.wrapping_neg())
    }
}
