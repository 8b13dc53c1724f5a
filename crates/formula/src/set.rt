// Sets of locations as masks: location l is a member if bit l is one, so none of 32 or more is.
ghost use Rattle.std.specs.Prelude.{◌≡◌, ◌%◌, ◌^◌, bit_or};
ghost use Rattle.formula.specs.Sets.{has};

// Whether the location is in the set. The test keeps the shift below the mask's width.
pub fn contains(set: u32, location: u8) -> bool
    ensures { result ≡ has set location }
{
    location < 32 && set >> location & 1 == 1
}

// The set with the location put in, if it has a bit.
pub(crate) fn with(set: u32, location: u8) -> u32
    ensures { result ≡ bit_or set (2 ^ location) % 2 ^ 32 }
{
    if location < 32 {
        set | 1 << location
    } else {
        set
    }
}
