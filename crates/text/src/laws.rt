// Laws of the definitions; each function's contract is one.
ghost use Rattle.text.specs.Laws.{DigitsStand, NumbersStand};

/// What is written in hexadecimal reads as the same bytes.
pub fn digits_stand()
    ensures { DigitsStand }
{}

/// What is printed in decimal reads as the same number.
pub fn numbers_stand()
    ensures { NumbersStand }
{}
