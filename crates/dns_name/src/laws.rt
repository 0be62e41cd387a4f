//! Laws over the definitions. The functions do nothing: their contracts say the law.
ghost use Rattle.std.specs.Prelude.{◌≡◌, ℕ, List};
ghost use Rattle.dns_name.specs.Name.{IsName};
ghost use Rattle.dns_name.specs.Printed.{printed_name};

/// Names with the same printed form are the same.
pub fn printed_names_differ()
    ensures { (a b : List (List ℕ)) → IsName a → IsName b → printed_name a ≡ printed_name b → a ≡ b }
{}
