//! Laws of generated zones. The functions do nothing: what they promise is the law.
ghost use Rattle.spf_gen.specs.Laws.{FirstOfZero};
ghost use Rattle.spf_gen.specs.Records.{ZoneIsRead};

/// The first network that the number 0 makes is 20.5.123.96/27, which passes.
pub fn first_of_zero()
    ensures { FirstOfZero }
{}

/// The bytes of a zone of up to 10,000 networks are a master file, which is read as its nine records (RFC 1035,
/// section 5).
pub fn zone_is_read()
    ensures { ZoneIsRead }
{}
