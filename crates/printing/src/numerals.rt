// Numbers as text.
ghost use Rattle.std.specs.Prelude.{◌≡◌, ◌+◌, ◌≤◌};
ghost use Rattle.std.specs.Float.Ieee.{to_bits};
ghost use Rattle.std.specs.Float.{binary64};
ghost use Rattle.printing.specs.Numerals.{decimal as decimal_of, hexadecimal as hexadecimal_of};
ghost use Rattle.printing.specs.Puts.{Puts};

use crate::digits::{decimal_digits, hex_digits};
use crate::page::Page;

// The bits of a float. A NaN has many, of which this is one; no distance that is printed is NaN.
fn bits(x: f64) -> u64
    ensures { result ≡ to_bits binary64 x }
{
    if x.is_nan() {
        0x7ff8_0000_0000_0000
    } else {
        x.to_bits()
    }
}

impl Page<'_> {
    // Decimal, without zeros in front.
    pub fn decimal(&mut self, n: u64)
        requires { self.old.at ≤ 2147483648 }
        ensures same_buffer { self.new.out.ghost_name ≡ self.old.out.ghost_name }
        ensures puts { Puts self.old.out.now self.old.at (decimal_of n) self.new.out.now self.new.at }
        ensures upper_bound { self.new.at ≤ self.old.at + 20 }
    {
        let mut digits = [0u8; 20];
        self.text(decimal_digits(n, &mut digits));
    }

    // The bits of a float, 16 hexadecimal digits.
    pub fn hexadecimal(&mut self, x: f64)
        requires { self.old.at ≤ 2147483648 }
        ensures same_buffer { self.new.out.ghost_name ≡ self.old.out.ghost_name }
        ensures puts { Puts self.old.out.now self.old.at (hexadecimal_of (to_bits binary64 x)) self.new.out.now self.new.at }
        ensures upper_bound { self.new.at ≤ self.old.at + 16 }
    {
        let mut digits = [0u8; 16];
        self.text(hex_digits(bits(x), 16, &mut digits));
    }
}
