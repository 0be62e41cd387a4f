//! What holds of every fragment. The functions do nothing: what they promise is the law.
ghost use Rattle.zone_writer.specs.Written.{FragmentIsRead};

/// The fragment of a cut that fits is a master file (RFC 1035, section 5), which a reader of the zone of the domain
/// reads as the records of the cut, in order.
pub fn fragment_is_read()
    ensures { FragmentIsRead }
{}
