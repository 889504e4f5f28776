//! The sums by which rows, tables and the folder of a live run know a query.

ghost use Rattle.std.specs.Prelude.{◌≡◌, ◌++◌, IfOk, OnOk};
ghost use Rattle.wsm_tokens.specs.Tokens.{token_of};
ghost use Rattle.wsm_tokens.specs.Written.{token_text};
ghost use Rattle.wsm_explain.specs.Sums.{IsInputSum, IsLiveSum, IsSpelt, fed_mark, gap, text_sum, told, told_token};

use itoa::Buffer;
use std::alloc::{AllocError, Global};
use wsm_inputs::{End, Input, compile_text, migrate};
use wsm_sums::Crc32;
use wsm_tokens::{Reader, Token};

/// The CRC-32 of a query's tokens, with a blank between each two, without the number of RECORDS.
pub fn text_sum(alloc: Global, text: &[u8]) -> Result<u32, AllocError>
    ensures { IfOk result (λ sum. sum ≡ text_sum text.now) }
{
    let told = told(alloc, text)?;
    let mut sum = Crc32::new();
    sum.add(&told);
    Ok(sum.sum())
}

/// The sum by which rows know what they were cut for: of a query's text that of [`text_sum`], of a program's bytes that of these in
/// the version that is written.
///
/// # Errors
///
/// Bytes that spell no program are refused; else memory was.
pub fn input_sum(alloc: Global, input: Input<'_>) -> Result<u32, End>
    ensures { IfOk result (IsInputSum input.entry) }
{
    match input {
        Input::Text(text) => Ok(text_sum(alloc, text)?),
        Input::Program(bytes) => {
            let newest = migrate(alloc, bytes)?;
            let mut sum = Crc32::new();
            sum.add(&newest);
            Ok(sum.sum())
        }
    }
}

/// The sum of all that says what is written for the lines of a log: the bytes of the program, in the version that is written, and
/// those of its source behind them. It is another one where the lines come on standard input, so no folder takes them of both.
///
/// # Errors
///
/// A text or bytes that are no program are refused; else memory was.
pub fn live_sum(alloc: Global, input: Input<'_>, source: &[u8], is_fed: bool) -> Result<u32, End>
    ensures { IfOk result (IsLiveSum input.entry source.now is_fed) }
{
    let newest = spelt(alloc, input)?;
    let mut sum = Crc32::new();
    sum.add(&newest);
    sum.add(source);
    sum.add(mark_of(is_fed));
    Ok(sum.sum())
}

// What stands behind the source where the lines come on standard input.
fn mark_of(is_fed: bool) -> &'static [u8]
    ensures { result.now ≡ fed_mark is_fed }
{
    if is_fed { b"-" } else { b"" }
}

// The bytes of an input's program, in the version that is written.
fn spelt(alloc: Global, input: Input<'_>) -> Result<Vec<u8>, End>
    ensures { IfOk result (λ bytes. IsSpelt input.entry bytes.items) }
{
    match input {
        Input::Text(text) => compile_text(alloc, text),
        Input::Program(bytes) => migrate(alloc, bytes),
    }
}

// The text of which the sum is.
fn told(alloc: Global, text: &[u8]) -> Result<Vec<u8>, AllocError>
    ensures { IfOk result (λ v. v.items ≡ told text.now) }
{
    let mut reader = Reader::new(text);
    let mut told = Vec::with_capacity(alloc, text.len())?;
    let mut is_first = true;
    let mut is_behind_records = false;
    while let Some(token) = reader.peek() {
        add_told(&mut told, is_first, is_behind_records, token)?;
        let is_records = reader.begins(b"RECORDS");
        reader.advance();
        is_first = false;
        is_behind_records = is_records;
    }
    Ok(told)
}

// Adds a token behind a blank, or nothing in the place of a number behind RECORDS.
fn add_told(
    told: &mut Vec<u8>,
    is_first: bool,
    is_behind_records: bool,
    token: Token<'_>,
) -> Result<(), AllocError>
    ensures { OnOk result (told.new.items ≡ told.old.items ++ (gap is_first ++ told_token is_behind_records (token_of token.entry))) }
{
    if !is_first {
        told.push(b' ')?;
    }
    if is_behind_records {
        return Ok(());
    }
    add_token(told, token)
}

fn add_token(told: &mut Vec<u8>, token: Token<'_>) -> Result<(), AllocError>
    ensures { OnOk result (told.new.items ≡ told.old.items ++ token_text (token_of token.entry)) }
{
    match token {
        Token::Word(word) => told.extend_from_slice(word),
        Token::Sign(sign) => told.extend_from_slice(sign.text()),
        Token::Number(number) => told.extend_from_slice(Buffer::new().format(number).as_bytes()),
    }
}
