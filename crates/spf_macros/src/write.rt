//! Writing macro texts.
ghost use Rattle.std.specs.Prelude.{◌≡◌, ◌≤◌, ◌++◌, ◌==◌, [], ◌∷◌, decimal, filter, codes, OnOk, IfOk, if◌then◌else◌};
ghost use Rattle.spf_macros.specs.Grammar.{SpellsMacroText, written};
ghost use Rattle.spf_macros.specs.Grammar as grammar;
ghost use Rattle.spf_macros.specs.Laws.{IsMacroText};

use crate::transformers::is_in_set;
use crate::{Letter, Macro, MacroText, Piece};
use addr_bits::Bytes;
use itoa::Buffer;
use std::alloc::{AllocError, Global};

/// A letter in lower case.
fn letter_code(letter: Letter) -> u8
    ensures code { result ≡ grammar.letter_code letter }
    ensures lower { 97 ≤ result }
{
    match letter {
        Letter::S => b's',
        Letter::L => b'l',
        Letter::O => b'o',
        Letter::D => b'd',
        Letter::I => b'i',
        Letter::P => b'p',
        Letter::H => b'h',
        Letter::V => b'v',
        Letter::C => b'c',
        Letter::R => b'r',
        Letter::T => b't',
    }
}

fn letter_byte(letter: Letter, upper: bool) -> u8
    ensures { result ≡ grammar.letter_byte letter upper }
{
    let code = letter_code(letter);
    if upper { code - 32 } else { code }
}

fn write_keep(text: &mut Bytes, keep: u8) -> Result<(), AllocError>
    ensures { OnOk result (text.new ≡ text.old ++ (if keep == 0 then [] else decimal keep)) }
{
    if keep == 0 {
        return Ok(());
    }
    let mut buffer = Buffer::new();
    text.extend_from_slice(buffer.format(keep).as_bytes())
}

fn write_reverse(text: &mut Bytes, reverse: bool) -> Result<(), AllocError>
    ensures { OnOk result (text.new ≡ text.old ++ (if reverse then codes "r" else [])) }
{
    if reverse { text.push(b'r') } else { Ok(()) }
}

fn write_delimiter(text: &mut Bytes, set: u8, delimiter: u8) -> Result<(), AllocError>
    ensures { OnOk result (text.new ≡ text.old ++ (if grammar.is_in_set set delimiter then delimiter ∷ [] else [])) }
{
    if is_in_set(set, delimiter) {
        text.push(delimiter)
    } else {
        Ok(())
    }
}

fn write_chosen(text: &mut Bytes, set: u8, delimiters: &[u8]) -> Result<(), AllocError>
    ensures { OnOk result (text.new ≡ text.old ++ filter (grammar.is_in_set set) delimiters.now) }
{
    for delimiter in delimiters {
        write_delimiter(text, set, *delimiter)?;
    }
    Ok(())
}

fn write_delimiters(text: &mut Bytes, set: u8) -> Result<(), AllocError>
    ensures { OnOk result (text.new ≡ text.old ++ filter (grammar.is_in_set set) (codes ".-+,/_=")) }
{
    write_chosen(text, set, b".-+,/_=")
}

fn write_macro(text: &mut Bytes, written: Macro) -> Result<(), AllocError>
    ensures { OnOk result (text.new ≡ text.old ++ grammar.written_macro written) }
{
    text.extend_from_slice(b"%{")?;
    text.push(letter_byte(written.letter, written.upper))?;
    write_keep(text, written.keep)?;
    write_reverse(text, written.reverse)?;
    write_delimiters(text, written.delims)?;
    text.push(b'}')
}

fn write_piece(text: &mut Bytes, piece: Piece) -> Result<(), AllocError>
    ensures { OnOk result (text.new ≡ text.old ++ grammar.written_piece piece) }
{
    match piece {
        Piece::Literal(byte) => text.push(byte),
        Piece::Percent => text.extend_from_slice(b"%%"),
        Piece::Space => text.extend_from_slice(b"%_"),
        Piece::Percent20 => text.extend_from_slice(b"%-"),
        Piece::Expand(written) => write_macro(text, written),
    }
}

fn write_pieces(text: &mut Bytes, pieces: &[Piece]) -> Result<(), AllocError>
    ensures { OnOk result (text.new ≡ text.old ++ written pieces.now) }
{
    for piece in pieces {
        write_piece(text, *piece)?;
    }
    Ok(())
}

/// The written form of a macro text: numbers as they are held, `r` in lower case, and delimiters in
/// the order of the grammar. It is read back as the macro text (RFC 7208, section 7.1). `AllocError` where there is no
/// memory.
pub fn write_macro_text(alloc: Global, pieces: &MacroText) -> Result<Bytes, AllocError>
    requires { IsMacroText pieces.now }
    ensures text { IfOk result (λ text. text ≡ written pieces.now) }
    ensures spells { IfOk result (λ text. SpellsMacroText text pieces.now) }
{
    let mut text = Bytes::new(alloc);
    write_pieces(&mut text, pieces.as_slice())?;
    Ok(text)
}
