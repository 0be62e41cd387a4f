//! The names of mechanisms.
ghost use Rattle.std.specs.Prelude.{MatchOption};
ghost use Rattle.spf_grammar.specs.declared.keywords.Keyword.{Keyword as IsKeyword};
ghost use Rattle.spf_grammar.specs.Grammar.{SaysWord};
ghost use Rattle.spf_grammar.specs.Reading.{word};

/// The names of mechanisms (RFC 7208, section 5).
#[derive(Clone, Copy, PartialEq, Eq)]
pub(crate) enum Keyword {
    All,
    Include,
    A,
    Mx,
    Ptr,
    Ip4,
    Ip6,
    Exists,
}

/// The mechanism of a name, in letters of either case.
pub(crate) fn read_keyword(name: &[u8]) -> Option<Keyword>
    ensures { MatchOption result ((k : IsKeyword) → ¬ SaysWord name.now (word k)) (λ k. SaysWord name.now (word k)) }
{
    if name.eq_ignore_ascii_case(b"all") {
        Some(Keyword::All)
    } else if name.eq_ignore_ascii_case(b"include") {
        Some(Keyword::Include)
    } else if name.eq_ignore_ascii_case(b"a") {
        Some(Keyword::A)
    } else if name.eq_ignore_ascii_case(b"mx") {
        Some(Keyword::Mx)
    } else if name.eq_ignore_ascii_case(b"ptr") {
        Some(Keyword::Ptr)
    } else if name.eq_ignore_ascii_case(b"ip4") {
        Some(Keyword::Ip4)
    } else if name.eq_ignore_ascii_case(b"ip6") {
        Some(Keyword::Ip6)
    } else if name.eq_ignore_ascii_case(b"exists") {
        Some(Keyword::Exists)
    } else {
        None
    }
}
