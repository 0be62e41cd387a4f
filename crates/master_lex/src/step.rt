//! What a byte does to an open entry.
ghost use Rattle.std.specs.Prelude.{◌≡◌, ◌+◌, ◌<◌, ◌^◌, true, false, [], ◌∷◌, ◌++◌, IfOk, ◌-◌, MatchOption};
ghost use Rattle.master_lex.specs.Items as items;
ghost use Rattle.master_lex.specs.Steps as steps;

use crate::entry::{Octet, Token, Tokens, Units};
use crate::fault::LexKind;
use crate::part::{Escape, Part, Step};
use std::alloc::{AllocError, Global};

/// Whether the byte is a blank.
pub(crate) fn is_blank(byte: u8) -> bool
    ensures { result ≡ items.is_blank byte }
{
    byte == b' ' || byte == b'\t' || byte == b'\r'
}

/// Whether the byte ends a plain token or begins an escape.
fn ends_plain(byte: u8) -> bool
    ensures { result ≡ items.ends_plain byte }
{
    is_blank(byte) || byte == b'\n' || b"\"();\\".contains(&byte)
}

/// The state outside tokens and comments.
fn outside(depth: u64, tokens: Tokens) -> Step
    ensures { result ≡ Step.Goes depth tokens Part.Outside }
{
    Step::Goes {
        depth,
        tokens,
        part: Part::Outside,
    }
}

/// The state within a token.
fn in_token(depth: u64, tokens: Tokens, quoted: bool, units: Units, escape: Escape) -> Step
    ensures { result ≡ Step.Goes depth tokens (Part.InToken quoted units escape) }
{
    Step::Goes {
        depth,
        tokens,
        part: Part::InToken {
            quoted,
            units,
            escape,
        },
    }
}

/// A line feed.
fn at_feed(depth: u64, tokens: Tokens) -> Step
    ensures { result ≡ steps.at_feed depth tokens }
{
    if depth == 0 {
        Step::Closes { tokens }
    } else {
        outside(depth, tokens)
    }
}

/// A `)`.
fn at_closing(depth: u64, tokens: Tokens) -> Step
    ensures { result ≡ steps.at_closing depth tokens }
{
    if depth == 0 {
        Step::Fails {
            kind: LexKind::StrayParen,
        }
    } else {
        outside(depth - 1, tokens)
    }
}

/// A byte that is no part of a plain token.
fn at_mark(alloc: Global, depth: u64, tokens: Tokens, byte: u8) -> Step
    ensures { depth + 1 < 2 ^ 64 → result ≡ steps.at_mark depth tokens byte }
{
    if is_blank(byte) {
        outside(depth, tokens)
    } else if byte == b'\n' {
        at_feed(depth, tokens)
    } else if byte == b';' {
        Step::Goes {
            depth,
            tokens,
            part: Part::InComment,
        }
    } else if byte == b'(' {
        outside(depth.saturating_add(1), tokens)
    } else if byte == b')' {
        at_closing(depth, tokens)
    } else if byte == b'"' {
        in_token(depth, tokens, true, Units::new(alloc), Escape::Unescaped)
    } else {
        in_token(depth, tokens, false, Units::new(alloc), Escape::Slash)
    }
}

/// The units with an octet behind them.
fn with_octet(mut units: Units, byte: u8, escaped: bool) -> Result<Units, AllocError>
    ensures { IfOk result (λ all. all ≡ units ++ record { byte = byte; escaped = escaped } ∷ []) }
{
    units.push(Octet { byte, escaped })?;
    Ok(units)
}

/// The tokens with a token behind them.
pub(crate) fn with_token(
    mut tokens: Tokens,
    quoted: bool,
    units: Units,
) -> Result<Tokens, AllocError>
    ensures { IfOk result (λ all. all ≡ steps.with_token tokens quoted units) }
{
    tokens.push(Token { units, quoted })?;
    Ok(tokens)
}

/// A byte outside tokens and comments.
fn step_outside(alloc: Global, depth: u64, tokens: Tokens, byte: u8) -> Result<Step, AllocError>
    ensures { depth + 1 < 2 ^ 64 → IfOk result (λ s. s ≡ steps.step depth tokens Part.Outside byte) }
{
    if ends_plain(byte) {
        return Ok(at_mark(alloc, depth, tokens, byte));
    }
    let units = with_octet(Units::new(alloc), byte, false)?;
    Ok(in_token(depth, tokens, false, units, Escape::Unescaped))
}

/// A byte of a comment, or the line feed behind it.
fn step_comment(depth: u64, tokens: Tokens, byte: u8) -> Step
    ensures { result ≡ steps.step depth tokens Part.InComment byte }
{
    if byte == b'\n' {
        return at_feed(depth, tokens);
    }
    Step::Goes {
        depth,
        tokens,
        part: Part::InComment,
    }
}

/// A byte of a plain token, or a byte that ends it.
fn step_plain(
    alloc: Global,
    depth: u64,
    tokens: Tokens,
    units: Units,
    byte: u8,
) -> Result<Step, AllocError>
    ensures { depth + 1 < 2 ^ 64 → IfOk result (λ s. s ≡ steps.step depth tokens
        (Part.InToken false units Escape.Unescaped) byte) }
{
    if !ends_plain(byte) {
        let units = with_octet(units, byte, false)?;
        return Ok(in_token(depth, tokens, false, units, Escape::Unescaped));
    }
    if byte == b'\\' {
        return Ok(in_token(depth, tokens, false, units, Escape::Slash));
    }
    let tokens = with_token(tokens, false, units)?;
    Ok(at_mark(alloc, depth, tokens, byte))
}

/// A byte of a quoted token, or the quote that ends it.
fn step_quoted(depth: u64, tokens: Tokens, units: Units, byte: u8) -> Result<Step, AllocError>
    ensures { IfOk result (λ s. s ≡ steps.step depth tokens (Part.InToken true units Escape.Unescaped) byte) }
{
    match byte {
        b'"' => {
            let tokens = with_token(tokens, true, units)?;
            Ok(outside(depth, tokens))
        }
        b'\\' => Ok(in_token(depth, tokens, true, units, Escape::Slash)),
        b'\n' => Ok(Step::Fails {
            kind: LexKind::OpenQuote,
        }),
        _ => {
            let units = with_octet(units, byte, false)?;
            Ok(in_token(depth, tokens, true, units, Escape::Unescaped))
        }
    }
}

/// The byte behind a `\`.
fn step_slash(
    depth: u64,
    tokens: Tokens,
    quoted: bool,
    units: Units,
    byte: u8,
) -> Result<Step, AllocError>
    ensures { IfOk result (λ s. s ≡ steps.step depth tokens (Part.InToken quoted units Escape.Slash) byte) }
{
    if byte.is_ascii_digit() {
        return Ok(in_token(depth, tokens, quoted, units, Escape::OneDigit(byte)));
    }
    if byte == b'\n' || byte == b'\r' {
        return Ok(Step::Fails {
            kind: LexKind::BadEscape,
        });
    }
    let units = with_octet(units, byte, true)?;
    Ok(in_token(depth, tokens, quoted, units, Escape::Unescaped))
}

/// The byte behind a `\` and one digit.
fn step_one_digit(
    depth: u64,
    tokens: Tokens,
    quoted: bool,
    units: Units,
    first: u8,
    byte: u8,
) -> Step
    ensures { result ≡ steps.step depth tokens (Part.InToken quoted units (Escape.OneDigit first)) byte }
{
    if byte.is_ascii_digit() {
        return in_token(depth, tokens, quoted, units, Escape::TwoDigits(first, byte));
    }
    Step::Fails {
        kind: LexKind::BadEscape,
    }
}

/// The value of a decimal digit.
fn digit_value(digit: u8) -> u16
    ensures { result ≡ digit - 48 }
{
    u16::from(digit.saturating_sub(b'0'))
}

/// The octet that three digits stand for, if they stand for one.
fn octet_of_digits(first: u8, second: u8, third: u8) -> Option<u8>
    ensures { MatchOption result
        (items.is_escape (items.numbered (steps.value_of first second third)) ≡ false)
        (λ octet. (octet ≡ steps.value_of first second third) × (octet < 256)) }
{
    u8::try_from(100 * digit_value(first) + 10 * digit_value(second) + digit_value(third)).ok()
}

/// The byte behind a `\` and two digits.
fn step_two_digits(
    depth: u64,
    tokens: Tokens,
    quoted: bool,
    units: Units,
    digits: (u8, u8),
    byte: u8,
) -> Result<Step, AllocError>
    ensures { IfOk result (λ s. s ≡ steps.step depth tokens
        (Part.InToken quoted units (Escape.TwoDigits digits.0 digits.1)) byte) }
{
    let octet = octet_of_digits(digits.0, digits.1, byte);
    match octet {
        Some(octet) if byte.is_ascii_digit() => {
            let units = with_octet(units, octet, true)?;
            Ok(in_token(depth, tokens, quoted, units, Escape::Unescaped))
        }
        _ => Ok(Step::Fails {
            kind: LexKind::BadEscape,
        }),
    }
}

/// What the byte does to the entry.
pub(crate) fn step(
    alloc: Global,
    depth: u64,
    tokens: Tokens,
    part: Part,
    byte: u8,
) -> Result<Step, AllocError>
    ensures { depth + 1 < 2 ^ 64 → IfOk result (λ s. s ≡ steps.step depth tokens part byte) }
{
    match part {
        Part::Outside => step_outside(alloc, depth, tokens, byte),
        Part::InComment => Ok(step_comment(depth, tokens, byte)),
        Part::InToken {
            quoted,
            units,
            escape,
        } => match escape {
            Escape::Unescaped if quoted => step_quoted(depth, tokens, units, byte),
            Escape::Unescaped => step_plain(alloc, depth, tokens, units, byte),
            Escape::Slash => step_slash(depth, tokens, quoted, units, byte),
            Escape::OneDigit(first) => Ok(step_one_digit(
                depth, tokens, quoted, units, first, byte,
            )),
            Escape::TwoDigits(first, second) => step_two_digits(
                depth,
                tokens,
                quoted,
                units,
                (first, second),
                byte,
            ),
        },
    }
}

/// The tokens of an entry that the end of the file closes, or why it is none.
pub(crate) fn end(
    depth: u64,
    tokens: Tokens,
    part: Part,
) -> Result<Result<Tokens, LexKind>, AllocError>
    ensures { IfOk result (λ r. r ≡ steps.end_of depth tokens part) }
{
    let tokens = match part {
        Part::Outside | Part::InComment => tokens,
        Part::InToken {
            quoted,
            units,
            escape,
        } => match escape {
            Escape::Unescaped if quoted => return Ok(Err(LexKind::OpenQuote)),
            Escape::Unescaped => with_token(tokens, false, units)?,
            _ => return Ok(Err(LexKind::BadEscape)),
        },
    };
    if depth > 0 {
        return Ok(Err(LexKind::OpenParen));
    }
    Ok(Ok(tokens))
}
