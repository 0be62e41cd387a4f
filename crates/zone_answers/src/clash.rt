//! Aliases beside other records.
ghost use Rattle.std.specs.Prelude.{◌≡◌, IfOk};
ghost use Rattle.std.specs.Option.{option_copied};
ghost use Rattle.zone_answers.specs.Lend.{IsLesser, bodies_clash};

use dns_name::Name;
use master_reader::Body;
use std::alloc::{AllocError, Global};

/// Whether a CNAME body with this target clashes with the other body of its owner (RFC 1034, section 3.6.2).
pub(crate) fn clashes(target: &Name, body: &Body) -> bool
    ensures { result ≡ bodies_clash (Body.Cname target.now) body.now }
{
    match body {
        Body::Cname(other) => target != other,
        Body::Other => false,
        _ => true,
    }
}

/// The name, or the least so far if that is less by its printed form.
pub(crate) fn lesser<'a>(
    alloc: Global,
    least: Option<&'a Name>,
    name: &'a Name,
) -> Result<&'a Name, AllocError>
    ensures { IfOk result (λ lesser. IsLesser (option_copied least.entry) name.entry.now lesser.now) }
{
    let Some(other) = least else {
        return Ok(name);
    };
    let text = name.write_text(alloc)?;
    let other_text = other.write_text(alloc)?;
    if text.as_slice() < other_text.as_slice() {
        Ok(name)
    } else {
        Ok(other)
    }
}
