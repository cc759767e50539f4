//! The signed integers as scalars.

ghost use Rattle.std.specs.Prelude.{◌≡◌, ◌-◌, ◌^◌, ◌↔◌, ◌≤ℤ◌, ◌<ℤ◌, IsTrue, pos, negsuc, refl};
ghost use Rattle.std.proofs.Common.{rules};
ghost use Rattle.num_traits.specs.Laws.{between};

use crate::point::RTreeNum;

// Clamped arithmetic goes by the next wider type: no test of an overflow, and so no branch.

// A number held between the ends of `i8`.
fn clamped_to_i8(number: i16) -> i8
    ensures { result ≡ between number (negsuc (2 ^ 7 - 1)) (pos (2 ^ 7 - 1)) }
{
    number.clamp(i16::from(i8::MIN), i16::from(i8::MAX)) as i8
}

// A number held between the ends of `i16`.
fn clamped_to_i16(number: i32) -> i16
    ensures { result ≡ between number (negsuc (2 ^ 15 - 1)) (pos (2 ^ 15 - 1)) }
{
    number.clamp(i32::from(i16::MIN), i32::from(i16::MAX)) as i16
}

// A number held between the ends of `i32`.
fn clamped_to_i32(number: i64) -> i32
    ensures { result ≡ between number (negsuc (2 ^ 31 - 1)) (pos (2 ^ 31 - 1)) }
{
    number.clamp(i64::from(i32::MIN), i64::from(i32::MAX)) as i32
}

// A number held between the ends of `i64`.
fn clamped_to_i64(number: i128) -> i64
    ensures { result ≡ between number (negsuc (2 ^ 63 - 1)) (pos (2 ^ 63 - 1)) }
{
    number.clamp(i128::from(i64::MIN), i128::from(i64::MAX)) as i64
}

// Whether a number is one of those whose products all fit.
fn is_small(number: i64) -> bool
    ensures { IsTrue result ↔ ((pos 0 ≤ℤ number) × (number <ℤ pos (2 ^ 31))) }
{
    0 <= number && number <= 2147483647
}

impl RTreeNum for i8 {
    ghost of_value = { λ z. z };

    fn ord(self) -> i8 {
        self
    }

    fn half_sum(self, other: i8) -> i8 {
        ((i16::from(self) + i16::from(other)) / 2) as i8
    }

    fn clamped_add(self, other: i8) -> i8 {
        clamped_to_i8(i16::from(self) + i16::from(other))
    }

    fn clamped_sub(self, other: i8) -> i8 {
        clamped_to_i8(i16::from(self) - i16::from(other))
    }

    fn clamped_mul(self, other: i8) -> i8 {
        clamped_to_i8(i16::from(self) * i16::from(other))
    }

    ghost low_law = { record { lt = tt } };

    ghost high_law = { record { lt = tt } };

    ghost of_value_law = { λ x. refl };

    ghost value_of_law = { λ z _. refl };

    ghost narrow = { Prim.search rules };
}

impl RTreeNum for i16 {
    ghost of_value = { λ z. z };

    fn ord(self) -> i16 {
        self
    }

    fn half_sum(self, other: i16) -> i16 {
        ((i32::from(self) + i32::from(other)) / 2) as i16
    }

    fn clamped_add(self, other: i16) -> i16 {
        clamped_to_i16(i32::from(self) + i32::from(other))
    }

    fn clamped_sub(self, other: i16) -> i16 {
        clamped_to_i16(i32::from(self) - i32::from(other))
    }

    fn clamped_mul(self, other: i16) -> i16 {
        clamped_to_i16(i32::from(self) * i32::from(other))
    }

    ghost low_law = { record { lt = tt } };

    ghost high_law = { record { lt = tt } };

    ghost of_value_law = { λ x. refl };

    ghost value_of_law = { λ z _. refl };

    ghost narrow = { Prim.search rules };
}

impl RTreeNum for i32 {
    ghost of_value = { λ z. z };

    fn ord(self) -> i32 {
        self
    }

    fn half_sum(self, other: i32) -> i32 {
        ((i64::from(self) + i64::from(other)) / 2) as i32
    }

    fn clamped_add(self, other: i32) -> i32 {
        clamped_to_i32(i64::from(self) + i64::from(other))
    }

    fn clamped_sub(self, other: i32) -> i32 {
        clamped_to_i32(i64::from(self) - i64::from(other))
    }

    fn clamped_mul(self, other: i32) -> i32 {
        clamped_to_i32(i64::from(self) * i64::from(other))
    }

    ghost low_law = { record { lt = tt } };

    ghost high_law = { record { lt = tt } };

    ghost of_value_law = { λ x. refl };

    ghost value_of_law = { λ z _. refl };

    ghost narrow = { Prim.search rules };
}

impl RTreeNum for i64 {
    ghost of_value = { λ z. z };

    fn ord(self) -> i64 {
        self
    }

    fn half_sum(self, other: i64) -> i64 {
        ((i128::from(self) + i128::from(other)) / 2) as i64
    }

    fn clamped_add(self, other: i64) -> i64 {
        clamped_to_i64(i128::from(self) + i128::from(other))
    }

    fn clamped_sub(self, other: i64) -> i64 {
        clamped_to_i64(i128::from(self) - i128::from(other))
    }

    fn clamped_mul(self, other: i64) -> i64 {
        if is_small(self) && is_small(other) {
            self * other
        } else {
            clamped_to_i64(i128::from(self) * i128::from(other))
        }
    }

    fn distance_2(self, other: i64) -> i64 {
        let apart = self.abs_diff(other);
        // The squares of these fit.
        if apart <= 3037000499 {
            (apart * apart) as i64
        } else {
            i64::MAX
        }
    }

    ghost low_law = { record { lt = tt } };

    ghost high_law = { record { lt = tt } };

    ghost of_value_law = { λ x. refl };

    ghost value_of_law = { λ z _. refl };

    ghost narrow = { Prim.search rules };
}

impl RTreeNum for i128 {
    ghost of_value = { λ z. z };

    fn ord(self) -> i128 {
        self
    }

    fn half_sum(self, other: i128) -> i128 {
        if (self < 0) == (other < 0) {
            // The sum may not fit; its halves do.
            self / 2 + other / 2 + (self % 2 + other % 2) / 2
        } else {
            (self + other) / 2
        }
    }

    ghost low_law = { record { lt = tt } };

    ghost high_law = { record { lt = tt } };

    ghost of_value_law = { λ x. refl };

    ghost value_of_law = { λ z _. refl };

    ghost narrow = { Prim.search rules };
}

impl RTreeNum for isize {
    ghost of_value = { λ z. z };

    fn ord(self) -> isize {
        self
    }

    fn half_sum(self, other: isize) -> isize {
        (self as i64).half_sum(other as i64) as isize
    }

    fn clamped_add(self, other: isize) -> isize {
        (self as i64).clamped_add(other as i64) as isize
    }

    fn clamped_sub(self, other: isize) -> isize {
        (self as i64).clamped_sub(other as i64) as isize
    }

    fn clamped_mul(self, other: isize) -> isize {
        (self as i64).clamped_mul(other as i64) as isize
    }

    fn distance_2(self, other: isize) -> isize {
        (self as i64).distance_2(other as i64) as isize
    }

    ghost low_law = { record { lt = tt } };

    ghost high_law = { record { lt = tt } };

    ghost of_value_law = { λ x. refl };

    ghost value_of_law = { λ z _. refl };

    ghost narrow = { Prim.search rules };
}
