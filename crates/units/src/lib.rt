// The meta-types of clause 2.2.2, kept apart: a count of shares is never handed over as a count of cents, nor a trade
// number as an account.
#![tactic(auto)]

ghost use Rattle.std.specs.Prelude.{◌≡◌, ◌+◌, ◌^◌, ◌<◌, ◌≤◌, length, ℕ, ℤ, refl, ◌+ℤ◌, ◌-ℤ◌, nat_abs, neg_ℤ, pos};
ghost use Rattle.std.specs.Int.{w32, w64};
ghost use Rattle.std.proofs.Common.{of_z, to_z};
ghost use Rattle.record.specs.Bytes.{le};
ghost use Rattle.record.specs.Signed.{up};
ghost use Rattle.units.specs.Units.{cents, low, shares, signed_most};
ghost use Rattle.units.specs.Sizes.{in_range_holds};

use record::bytes;

// A signed amount of one kind. Each kind says how far from zero its amounts may lie, so that no sum leaves 64 bits.
pub trait Amount: Sized {
    ghost made: { ℤ → Self };

    ghost number: { Self → ℤ };

    ghost Within: { ℕ → Type 0 };

    fn signed(x: i64) -> Self
        ensures { result ≡ made x };

    fn raw(self) -> i64
        ensures { result ≡ number self };

    ghost keeps: { (z : ℤ) → number (made z) ≡ z };

    ghost in_bits: { (n : ℕ) → Within n → n ≤ signed_most };

    final fn of(x: u64) -> Self
        requires { Within x }
        ensures value { result ≡ made (pos x) }
        ensures result_value { (up (number result) ≡ x) × (nat_abs (number result) ≡ x) }
    {
        Self::signed(x as i64)
    }

    // The amount in eight bytes, signed.
    final fn at(part: &[u8], at: usize) -> Self
        requires { at + 8 ≤ length part.now }
        ensures { result ≡ made (to_z w64 (le 8 part.now at)) }
    {
        Self::signed(bytes::u64_at(part, at).cast_signed())
    }

    // In four bytes, never below zero.
    final fn at_u32(part: &[u8], at: usize) -> Self
        requires { at + 4 ≤ length part.now }
        ensures { result ≡ made (pos (le 4 part.now at)) }
    {
        Self::signed(i64::from(bytes::u32_at(part, at)))
    }

    // In four bytes, signed.
    final fn at_i32(part: &[u8], at: usize) -> Self
        requires { at + 4 ≤ length part.now }
        ensures { result ≡ made (to_z w32 (le 4 part.now at)) }
    {
        Self::signed(i64::from(bytes::u32_at(part, at).cast_signed()))
    }

    // The amount as a plain number; what is below zero counts as 0.
    final fn plain(self) -> u64
        ensures value { result ≡ up (number self) }
        ensures upper_bound { result ≤ signed_most }
    {
        let x = self.raw();
        if x < 0 { 0 } else { x as u64 }
    }

    // How much there is, held or owed.
    final fn size(self) -> u64
        ensures { result ≡ nat_abs (number self) }
    {
        self.raw().unsigned_abs()
    }

    final fn plus(self, other: Self) -> Self
        requires { Within (nat_abs (number self) + nat_abs (number other)) }
        ensures value { result ≡ made (number self +ℤ number other) }
        ensures result_bound { nat_abs (number result) ≤ nat_abs (number self) + nat_abs (number other) }
    {
        Self::signed(self.raw() + other.raw())
    }

    final fn negated(self) -> Self
        requires { Within (nat_abs (number self)) }
        ensures value { result ≡ made (neg_ℤ (number self)) }
        ensures result_value { nat_abs (number result) ≡ nat_abs (number self) }
    {
        Self::signed(-self.raw())
    }

    final fn less(self, other: Self) -> Self
        requires { Within (nat_abs (number self) + nat_abs (number other)) }
        ensures value { result ≡ made (number self -ℤ number other) }
        ensures result_bound { nat_abs (number result) ≤ nat_abs (number self) + nat_abs (number other) }
    {
        Self::signed(self.raw() - other.raw())
    }

    // The 64 bits of a signed amount.
    final fn bits(self) -> u64
        ensures { result ≡ of_z w64 (number self) }
    {
        self.raw().cast_unsigned()
    }

    // The lower 32 of them: an amount that is never below zero, or a signed one of 32 bits.
    final fn low(self) -> u32
        ensures { result ≡ low (number self) }
    {
        (self.bits() % 4294967296) as u32
    }
}

// A count of shares, below zero for what is owed.
#[derive(Clone, Copy, PartialEq, Eq, PartialOrd, Ord)]
pub struct Shares(pub i64);

impl Amount for Shares {
    ghost made = { shares };

    ghost number = { λ s. s.0 };

    ghost Within = { λ n. n ≤ signed_most };

    ghost keeps = { λ z. refl };

    ghost in_bits = { λ n h. h };

    fn signed(x: i64) -> Shares {
        Shares(x)
    }

    fn raw(self) -> i64 {
        let Shares(shares) = self;
        shares
    }
}

// Money. What is worked out with it stays below 2^62, so that a debugger shows it as it is.
#[derive(Clone, Copy, PartialEq, Eq, PartialOrd, Ord)]
pub struct Cents(pub i64);

impl Amount for Cents {
    ghost made = { cents };

    ghost number = { λ c. c.0 };

    ghost Within = { λ n. n < 2 ^ 62 };

    ghost keeps = { λ z. refl };

    ghost in_bits = { λ n h. in_range_holds h };

    fn signed(x: i64) -> Cents {
        Cents(x)
    }

    fn raw(self) -> i64 {
        let Cents(cents) = self;
        cents
    }
}

// Cents for one share.
#[derive(Clone, Copy, PartialEq, Eq, PartialOrd, Ord)]
pub struct Price(pub u32);

#[derive(Clone, Copy, PartialEq, Eq, PartialOrd, Ord)]
pub struct TradeNo(pub u64);

#[derive(Clone, Copy, PartialEq, Eq, PartialOrd, Ord)]
pub struct AccountNo(pub u32);

#[derive(Clone, Copy, PartialEq, Eq, PartialOrd, Ord)]
pub struct BrokerNo(pub u32);

#[derive(Clone, Copy, PartialEq, Eq, PartialOrd, Ord)]
pub struct CustomerNo(pub u32);

// The number of a tax rate.
#[derive(Clone, Copy, PartialEq, Eq, PartialOrd, Ord)]
pub struct RateNo(pub u32);

// Who may order for an account beside its owner; 0 is the owner.
#[derive(Clone, Copy, PartialEq, Eq, PartialOrd, Ord)]
pub struct ExecutorNo(pub u32);

// A tax rate.
#[derive(Clone, Copy, PartialEq, Eq, PartialOrd, Ord)]
pub struct PerHundredThousand(pub u32);

// A commission rate, in hundredths of a percent.
#[derive(Clone, Copy, PartialEq, Eq, PartialOrd, Ord)]
pub struct PerTenThousand(pub u32);

// Seconds from 2000-01-01.
#[derive(Clone, Copy, PartialEq, Eq, PartialOrd, Ord)]
pub struct Time(pub u32);
