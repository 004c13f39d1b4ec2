// Small tables of numbers as the digits of one number in base sixteen: the compiler's back end would make a `const` table anew at every look. Uses base.
#![tactic(auto)]

ghost use Rattle.std.specs.Prelude.{◌≡◌, ◌<◌};
ghost use Rattle.digits.specs.Digits.{digit_of};

// Digit i of a number, counted from the lowest.
pub fn digit(number: usize, i: usize) -> usize
    requires { i < 16 }
    ensures { result ≡ digit_of number i }
{
    (number >> (4 * i)) % 16
}
