//! Integers, and what operators make of them.

ghost use Rattle.std.specs.Prelude.{◌≡◌, ◌↔◌, ◌+◌, ◌-◌, ◌*◌, ◌%◌, ◌^◌, ◌≤◌, ◌<◌, ℤ, IsTrue, IfSome, IfNone, IsNone, IsSome, ◌+ℤ◌, ◌*ℤ◌, ◌-ℤ◌, ◌<ℤ◌, neg_ℤ, pos, cond, false, int_lt};
ghost use Rattle.std.specs.Int.{cast_unsigned, int_div_euclid, int_pow, int_rem_euclid, w128};
ghost use Rattle.std.specs.Int.RustNames.{int_div, int_rem, unsigned_abs};

use rust_source::IntegerKind;

/// An integer of at most 128 bits: the number `magnitude`, or minus it. Zero isn't negative.
#[derive(Clone, Copy, PartialEq, Eq)]
pub(crate) struct Int {
    pub(crate) is_negative: bool,
    pub(crate) magnitude: u128,
    ghost normal: { IsTrue is_negative → 1 ≤ magnitude },
}

/// How wide an integer type is, and whether it has negative numbers.
#[derive(Clone, Copy, PartialEq, Eq)]
pub(crate) struct Width {
    /// How many bits it has, 1 to 128.
    pub(crate) bits: u32,
    pub(crate) is_signed: bool,
    ghost some: { 1 ≤ bits },
    ghost most: { bits ≤ 128 },
}

impl Width {
    ghost use Rattle.abi_rust.specs.Int.{Has, nearest_number, wrapped, number_of_int};
    ghost use Rattle.abi_rust.specs.Operators.{bits_of_integer, holds_number, is_signed};

    /// The width of an integer type, under pointers of this many bits, of which 1 to 128 count.
    pub(crate) fn of(kind: IntegerKind, pointer_bits: u32) -> Width
        ensures bits { result.bits ≡ bits_of_integer pointer_bits kind }
        ensures signed { result.is_signed ≡ is_signed kind }
    {
        let (bits, is_signed) = match kind {
            IntegerKind::I8 => (8, true),
            IntegerKind::I16 => (16, true),
            IntegerKind::I32 => (32, true),
            IntegerKind::I64 => (64, true),
            IntegerKind::I128 => (128, true),
            IntegerKind::Isize => (pointer_bits, true),
            IntegerKind::U8 => (8, false),
            IntegerKind::U16 => (16, false),
            IntegerKind::U32 => (32, false),
            IntegerKind::U64 => (64, false),
            IntegerKind::U128 => (128, false),
            IntegerKind::Usize => (pointer_bits, false),
        };
        Width {
            bits: bits.max(1).min(128),
            is_signed,
        }
    }

    /// The greatest number of as many bits.
    pub(crate) fn mask(self) -> u128
        ensures { result ≡ 2 ^ self.bits - 1 }
    {
        if self.bits < 128 {
            (1 << self.bits) - 1
        } else {
            u128::MAX
        }
    }

    /// The number of the highest bit alone.
    fn top(self) -> u128
        ensures { result ≡ 2 ^ (self.bits - 1) }
    {
        1 << (self.bits - 1)
    }

    /// The type's greatest number.
    pub(crate) fn max(self) -> Int
        ensures { number_of_int result ≡ pos (cond self.is_signed (2 ^ (self.bits - 1) - 1) (2 ^ self.bits - 1)) }
    {
        if self.is_signed {
            Int::positive(self.top() - 1)
        } else {
            Int::positive(self.mask())
        }
    }

    /// The type's least number.
    pub(crate) fn min(self) -> Int
        ensures { number_of_int result ≡ cond self.is_signed (neg_ℤ (pos (2 ^ (self.bits - 1)))) (pos 0) }
    {
        if self.is_signed {
            Int::new(true, self.top())
        } else {
            Int::positive(0)
        }
    }

    /// Whether the type has the number.
    pub(crate) fn has(self, int: Int) -> bool
        ensures has { IsTrue result ↔ Has self (number_of_int int) }
        ensures value { result ≡ holds_number self.is_signed self.bits (number_of_int int) }
    {
        if self.is_signed {
            if int.is_negative {
                int.magnitude <= self.top()
            } else {
                int.magnitude < self.top()
            }
        } else {
            !int.is_negative && int.magnitude <= self.mask()
        }
    }

    /// The lowest of these bits, as many as the type has.
    #[tactic(auto, using(crate::proofs::Bits::and_mask))]
    pub(crate) fn low(self, bits: u128) -> u128
        ensures { result ≡ bits % 2 ^ self.bits }
    {
        bits & self.mask()
    }

    /// The number of the type that has these lowest bits.
    pub(crate) fn wrap(self, bits: u128) -> Int
        ensures { number_of_int result ≡ wrapped self.is_signed self.bits bits }
    {
        let low = self.low(bits);
        if !self.is_signed || low < self.top() {
            return Int::positive(low);
        }
        Int::new(true, self.mask() - low + 1)
    }

    /// The width of the type without a sign that has as many bits.
    pub(crate) fn unsigned(self) -> Width
        ensures bits { result.bits ≡ self.bits }
        ensures signed { result.is_signed ≡ false }
    {
        Width {
            bits: self.bits,
            is_signed: false,
        }
    }

    /// The type's number that is nearest to a number.
    fn nearest(self, int: Int) -> Int
        ensures { number_of_int result ≡ nearest_number self.is_signed self.bits (number_of_int int) }
    {
        if int.is_below(self.min()) {
            self.min()
        } else if self.max().is_below(int) {
            self.max()
        } else {
            int
        }
    }

    /// The type's number that is nearest to a number of more than 128 bits, which is negative or isn't.
    fn nearest_end(self, is_negative: bool) -> Int
        ensures { (z : ℤ) → 2 ^ 128 ≤ unsigned_abs z → int_lt z (pos 0) ≡ is_negative →
            number_of_int result ≡ nearest_number self.is_signed self.bits z }
    {
        if is_negative { self.min() } else { self.max() }
    }

    /// The type's number that is nearest to a sum.
    pub(crate) fn nearest_sum(self, a: Int, b: Int) -> Int
        ensures { number_of_int result ≡ nearest_number self.is_signed self.bits (number_of_int a +ℤ number_of_int b) }
    {
        match a.plus(b) {
            Some(sum) => self.nearest(sum),
            None => self.nearest_end(a.is_negative),
        }
    }

    /// The type's number that is nearest to a product.
    pub(crate) fn nearest_product(self, a: Int, b: Int) -> Int
        ensures { number_of_int result ≡ nearest_number self.is_signed self.bits (number_of_int a *ℤ number_of_int b) }
    {
        match a.times(b) {
            Some(product) => self.nearest(product),
            None => self.nearest_end(a.is_negative != b.is_negative),
        }
    }
}

impl Int {
    ghost use Rattle.abi_rust.specs.Int.{IsShift, number_of_int, signed, wrapped};

    /// The number, or minus it.
    pub(crate) fn new(is_negative: bool, magnitude: u128) -> Int
        ensures { number_of_int result ≡ signed is_negative magnitude }
    {
        Int {
            is_negative: is_negative && magnitude != 0,
            magnitude,
        }
    }

    /// A number that isn't negative.
    pub(crate) fn positive(magnitude: u128) -> Int
        ensures { number_of_int result ≡ pos magnitude }
    {
        Int {
            is_negative: false,
            magnitude,
        }
    }

    /// Its lowest 128 bits in two's complement.
    pub(crate) fn bits(self) -> u128
        ensures { result ≡ cast_unsigned w128 (number_of_int self) }
    {
        if self.is_negative {
            u128::MAX - self.magnitude + 1
        } else {
            self.magnitude
        }
    }

    /// Minus the number.
    pub(crate) fn negated(self) -> Int
        ensures { number_of_int result ≡ neg_ℤ (number_of_int self) }
    {
        Int::new(!self.is_negative, self.magnitude)
    }

    /// The sum, or none where it has more than 128 bits.
    pub(crate) fn plus(self, other: Int) -> Option<Int>
        ensures some { IfSome result (λ sum. number_of_int sum ≡ number_of_int self +ℤ number_of_int other) }
        ensures none { IfNone result (2 ^ 128 ≤ unsigned_abs (number_of_int self +ℤ number_of_int other)) }
    {
        if self.is_negative == other.is_negative {
            let magnitude = self.magnitude.checked_add(other.magnitude)?;
            return Some(Int::new(self.is_negative, magnitude));
        }
        if self.magnitude >= other.magnitude {
            Some(Int::new(self.is_negative, self.magnitude - other.magnitude))
        } else {
            Some(Int::new(other.is_negative, other.magnitude - self.magnitude))
        }
    }

    /// The product, or none where it has more than 128 bits.
    pub(crate) fn times(self, other: Int) -> Option<Int>
        ensures some { IfSome result (λ product. number_of_int product ≡ number_of_int self *ℤ number_of_int other) }
        ensures none { IfNone result (2 ^ 128 ≤ unsigned_abs (number_of_int self *ℤ number_of_int other)) }
    {
        let magnitude = self.magnitude.checked_mul(other.magnitude)?;
        Some(Int::new(self.is_negative != other.is_negative, magnitude))
    }

    /// The quotient, cut towards zero, or none for a divisor that is zero.
    pub(crate) fn over(self, other: Int) -> Option<Int>
        ensures some { IfSome result (λ quotient. number_of_int quotient
            ≡ int_div (number_of_int self) (number_of_int other)) }
        ensures none { IsNone result ↔ (number_of_int other ≡ pos 0) }
    {
        let magnitude = self.magnitude.checked_div(other.magnitude)?;
        Some(Int::new(self.is_negative != other.is_negative, magnitude))
    }

    /// What the quotient leaves, of the sign of the dividend, or none for a divisor that is zero.
    pub(crate) fn left_over(self, other: Int) -> Option<Int>
        ensures some { IfSome result (λ rest. number_of_int rest ≡ int_rem (number_of_int self) (number_of_int other)) }
        ensures none { IsNone result ↔ (number_of_int other ≡ pos 0) }
    {
        let magnitude = self.magnitude.checked_rem(other.magnitude)?;
        Some(Int::new(self.is_negative, magnitude))
    }

    /// The quotient whose remainder isn't negative, or none for a divisor that is zero.
    pub(crate) fn over_euclid(self, other: Int) -> Option<Int>
        ensures some { IfSome result (λ quotient. number_of_int quotient
            ≡ int_div_euclid (number_of_int self) (number_of_int other)) }
        ensures none { IsNone result ↔ (number_of_int other ≡ pos 0) }
    {
        if other.magnitude == 0 {
            return None;
        }
        if !self.is_negative {
            return Some(Int::new(other.is_negative, self.magnitude / other.magnitude));
        }
        let magnitude = (self.magnitude - 1) / other.magnitude;
        Some(Int::new(!other.is_negative, magnitude.checked_add(1)?))
    }

    /// What that quotient leaves, or none for a divisor that is zero.
    pub(crate) fn left_over_euclid(self, other: Int) -> Option<Int>
        ensures some { IfSome result (λ rest. number_of_int rest
            ≡ int_rem_euclid (number_of_int self) (number_of_int other)) }
        ensures none { IsNone result ↔ (number_of_int other ≡ pos 0) }
    {
        if other.magnitude == 0 {
            return None;
        }
        if !self.is_negative {
            return Some(Int::positive(self.magnitude % other.magnitude));
        }
        let over = (self.magnitude - 1) % other.magnitude;
        Some(Int::positive(other.magnitude - 1 - over))
    }

    /// The number as a power's exponent, without its sign, or none where it has more than 32 bits.
    pub(crate) fn exponent(self) -> Option<u32>
        ensures some { IfSome result (λ exponent. unsigned_abs (number_of_int self) ≡ exponent) }
        ensures none { IfNone result (2 ^ 32 ≤ unsigned_abs (number_of_int self)) }
    {
        u32::try_from(self.magnitude).ok()
    }

    /// The number to the power, or none where it has more than 128 bits.
    pub(crate) fn power(self, exponent: u32) -> Option<Int>
        ensures some { IfSome result (λ power. number_of_int power ≡ int_pow (number_of_int self) exponent) }
        ensures none { IfNone result (2 ^ 128 ≤ unsigned_abs (int_pow (number_of_int self) exponent)) }
    {
        let magnitude = self.magnitude.checked_pow(exponent)?;
        Some(Int::new(self.is_negative && exponent % 2 == 1, magnitude))
    }

    /// The number times two to the power, in the lowest bits of a type, or none for a power that the type hasn't.
    pub(crate) fn shifted_left(self, width: Width, by: Int) -> Option<Int>
        ensures some { IfSome result (λ shifted. number_of_int shifted ≡ wrapped width.is_signed width.bits
            (cast_unsigned w128 (number_of_int self) * 2 ^ unsigned_abs (number_of_int by) % 2 ^ 128)) }
        ensures none { IsSome result ↔ IsShift width (number_of_int by) }
    {
        let by = by.shift(width)?;
        Some(width.wrap(self.bits() << by))
    }

    /// The number over two to the power, cut downwards, or none for a power that the type hasn't.
    pub(crate) fn shifted_right(self, width: Width, by: Int) -> Option<Int>
        ensures some { IfSome result (λ shifted. number_of_int shifted
            ≡ int_div_euclid (number_of_int self) (pos (2 ^ unsigned_abs (number_of_int by)))) }
        ensures none { IsSome result ↔ IsShift width (number_of_int by) }
    {
        let by = by.shift(width)?;
        if self.is_negative {
            return Some(Int::new(true, ((self.magnitude - 1) >> by) + 1));
        }
        Some(Int::positive(self.magnitude >> by))
    }

    /// Whether it is below the other.
    pub(crate) fn is_below(self, other: Int) -> bool
        ensures below { IsTrue result ↔ (number_of_int self <ℤ number_of_int other) }
        ensures value { result ≡ int_lt (number_of_int self) (number_of_int other) }
    {
        match (self.is_negative, other.is_negative) {
            (true, true) => self.magnitude > other.magnitude,
            (true, false) => true,
            (false, true) => false,
            (false, false) => self.magnitude < other.magnitude,
        }
    }

    /// By how many bits it shifts a number of the type: fewer than that has, or none.
    fn shift(self, width: Width) -> Option<u32>
        ensures some { IfSome result (λ n. (number_of_int self ≡ pos n) × (n < width.bits)) }
        ensures none { IsSome result ↔ IsShift width (number_of_int self) }
    {
        if self.is_negative || self.magnitude >= u128::from(width.bits) {
            return None;
        }
        Some(self.magnitude as u32)
    }
}
