//! What holds of all words. The functions do nothing: what they promise is the law.
ghost use Rattle.spfc_words.specs.Domains.{DomainsAreNames};

/// A domain, taken in lower case, is a legal name.
pub fn domains_are_names()
    ensures { DomainsAreNames }
{}
