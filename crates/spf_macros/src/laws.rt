//! Laws of macro texts. Their functions do nothing: what they promise is the law.
ghost use Rattle.spf_macros.specs.Laws.{OneMacroText, WrittenSpells};

/// A text spells at most one macro text.
pub fn one_macro_text()
    ensures { OneMacroText }
{}

/// The written form of a macro text, which some text spells, spells it.
pub fn written_macro_text()
    ensures { WrittenSpells }
{}
