// The result of an epoch of an equaliser. Nothing runs here.
ghost use Rattle.eq_biquad.specs.EpochLaws.{EpochsAreEqualised};

/// The frames of an epoch, which begins with all numbers 0, leave the equaliser as its equations by index say, and the numbers
/// after them are those of the epoch.
pub fn epochs_are_equalised()
    ensures { EpochsAreEqualised }
{}
