// Floats kept bit for bit. The logic has one NaN, so beside the value stands the pattern where that is a NaN's, and 0 otherwise.
ghost use Rattle.std.specs.Prelude.{◌≡◌};
ghost use Rattle.le.specs.Real.{f32_of, f32_bits_of, f64_of, f64_bits_of};

// Stays: two structs and no generic one, since each width has a literal of its own for its NaNs, and no trait of std gives them.

#[derive(Clone, Copy)]
pub struct F32 {
    pub value: f32,
    pub nan: u32,
}

#[derive(Clone, Copy)]
pub struct F64 {
    pub value: f64,
    pub nan: u64,
}

impl F32 {
    // The float with the pattern n.
    pub fn from_bits(n: u32) -> F32
        ensures { result ≡ f32_of n }
    {
        if n % 0x8000_0000 > 0x7F80_0000 {
            F32 {
                value: f32::NAN,
                nan: n,
            }
        } else {
            F32 {
                value: f32::from_bits(n),
                nan: 0,
            }
        }
    }

    // The pattern of a float: what `from_bits` was given, whatever it was. A NaN with no NaN's pattern beside it is a quiet one.
    pub fn to_bits(self) -> u32
        ensures { result ≡ f32_bits_of self }
    {
        if !self.value.is_nan() {
            self.value.to_bits()
        } else if self.nan % 0x8000_0000 > 0x7F80_0000 {
            self.nan
        } else {
            0x7FC0_0000
        }
    }
}

impl F64 {
    pub fn from_bits(n: u64) -> F64
        ensures { result ≡ f64_of n }
    {
        if n % 0x8000_0000_0000_0000 > 0x7FF0_0000_0000_0000 {
            F64 {
                value: f64::NAN,
                nan: n,
            }
        } else {
            F64 {
                value: f64::from_bits(n),
                nan: 0,
            }
        }
    }

    pub fn to_bits(self) -> u64
        ensures { result ≡ f64_bits_of self }
    {
        if !self.value.is_nan() {
            self.value.to_bits()
        } else if self.nan % 0x8000_0000_0000_0000 > 0x7FF0_0000_0000_0000 {
            self.nan
        } else {
            0x7FF8_0000_0000_0000
        }
    }
}
