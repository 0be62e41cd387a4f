//! Laws over the definitions. The functions do nothing: their contracts say the law.
ghost use Rattle.std.specs.Prelude.{◌≡◌, ◌<◌, ◌^◌, ◌++◌, ◌∷◌, ℕ, List, IsTrue, decimal, map, not, reverse};
ghost use Rattle.std.specs.List.{AllByRecursion, list_any};
ghost use Rattle.addr_bits.specs.Address.{address_of, bits_of};
ghost use Rattle.addr_bits.specs.Ip4.{octets_of};
ghost use Rattle.addr_bits.specs.declared.address.Address.TheVariants.{V4};
ghost use Rattle.addr_bits.specs.declared.address.Family.{Family};
ghost use Rattle.dns_name.specs.Name.{IsUnder, is_under};
ghost use Rattle.master_reader.specs.declared.record.Body.{Body};
ghost use Rattle.master_reader.specs.declared.record.Record.{Record};
ghost use Rattle.master_reader.specs.Reading.{Reads};
ghost use Rattle.zone_answers.specs.declared.answer.Answer.TheVariants.{Found};
ghost use Rattle.zone_answers.specs.declared.answer.QKind.{QKind};
ghost use Rattle.zone_answers.specs.Zone.{Zone};
ghost use Rattle.zone_answers.specs.Answers.{answer_of};
ghost use Rattle.zone_answers.specs.Reversed.{AreNamesUnder, answer_below, is_bare, is_plain, reversed_labels};
ghost use Rattle.zone_answers.specs.Reversed.{reversed_name};
ghost use Rattle.zone_answers.specs.Lend.{AreLendable, AreZones, IsBodyFit};

/// The records of a master file may be lent as those of its zone.
pub fn read_records_are_lendable()
    ensures { (zone : List (List ℕ)) (bytes : List ℕ) (records : List Record) → Reads zone bytes records
        → AreLendable zone records }
{}

/// The bodies of an answer are as those of the records that may be lent.
pub fn found_bodies_are_fit()
    ensures { (zones : List Zone) (name : List (List ℕ)) (kind : QKind) (bodies : List Body) → AreZones zones
        → answer_of zones name kind ≡ Found bodies → AllByRecursion IsBodyFit bodies }
{}

/// At every name with a label at or below which nothing is lent, the answer is that below the rest of the name: of what
/// is lent, only wildcards, delegations and origins above the label count (RFC 4592, section 3.3.1).
pub fn bare_names_answer_alike()
    ensures { (zones : List Zone) (kind : QKind) (front : List (List ℕ)) (label : List ℕ) (name : List (List ℕ))
        → IsTrue (is_bare zones (label ∷ name))
        → answer_of zones (front ++ label ∷ name) kind ≡ answer_below zones name kind }
{}

/// Below a plain name the answer is that below the name above it.
pub fn plain_names_answer_alike()
    ensures { (zones : List Zone) (kind : QKind) (label : List ℕ) (above : List (List ℕ))
        → IsTrue (is_plain zones label above)
        → answer_below zones (label ∷ above) kind ≡ answer_below zones above kind }
{}

/// The names at or below a top tell at which names there nothing is lent.
pub fn bare_by_names()
    ensures { (zones : List Zone) (top : List (List ℕ)) (names : List (List (List ℕ)))
        → AreNamesUnder zones top names → (name : List (List ℕ)) → IsUnder name top
        → is_bare zones name ≡ not (list_any (λ lent. is_under lent name) names) }
{}

/// The labels of an IPv4 address are its octets as decimal numbers, the last first (RFC 1035, section 3.5).
pub fn reversed_octets()
    ensures { (a : ℕ) → a < 2 ^ 32 → reversed_labels (V4 a) ≡ reverse (map decimal (octets_of a)) }
{}

/// Different addresses of a family have different reversed names.
pub fn one_reversed_name()
    ensures { (family : Family) (a b : ℕ) (suffix : List (List ℕ)) → a < 2 ^ bits_of family → b < 2 ^ bits_of family
        → reversed_name (address_of family a) suffix ≡ reversed_name (address_of family b) suffix → a ≡ b }
{}
