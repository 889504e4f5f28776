//! Reading a text token by token.

ghost use Rattle.std.specs.Prelude.{◌≡◌, ◌<◌, ◌≤◌, ◌-◌, false, length, slice_index, option_map, pos, ◌≤ℤ◌, IfOk, IfSome, IsTrue, OnErr};
ghost use Rattle.wsm_tokens.specs.Tokens.{is_blank, tokens, token_of, tokens_at};
ghost use Rattle.wsm_tokens.specs.Sight.{Sees, NotNegative};
ghost use Rattle.wsm_tokens.specs.Read.{in_sight, begins, begins_number, behind, count, is_end, unexpected, too_deep, number, name, ask, ended, Gives};

use crate::fault::{Fault, Stop, TextFault};
use crate::scan::{Seen, first_of, is_blank};
use crate::token::Token;
use std::marker::Model;
use wsm_record::Name;

/// A place between the tokens of a text. A clause sees the tokens behind it.
///
/// The token in sight was scanned already; a fault there is told only where a rule looks at it.
#[derive(Drop)]
pub struct Reader<'a> {
    text: &'a [u8],
    /// Where the token in sight begins, in bytes.
    offset: usize,
    sight: Sight<'a>,
}

/// What stands at an offset of a text.
#[derive(Clone, Copy)]
pub enum Sight<'a> {
    /// A token, and the offset behind it.
    Token(Token<'a>, usize),
    End,
    /// A fault, at an offset.
    Fault(Fault, usize),
}

impl<'a> Model for Reader<'a> {
    ghost use Rattle.wsm_tokens.specs.Tokens.{Tokens, tokens_at};
    ghost use Rattle.wsm_tokens.specs.Sight.{Sees};
    ghost use Rattle.wsm_tokens.specs.Code.{tokens_code};
    ghost use Rattle.wsm_tokens.specs.contracts.token.Sign as s;
    ghost use Rattle.wsm_tokens.specs.contracts.fault.Fault as f;
    ghost use Rattle.std.specs.Coded.{codes};

    ghost Value = { Tokens };

    ghost coded = { tokens_code (Prim.hlevel (codes, s.the_row.coded)) (Prim.hlevel (codes, f.the_row.coded)) };

    ghost view = { λ r. tokens_at r.text.now r.offset };

    ghost invariant = { λ r. Sees r.text.now r.offset r.sight };
}

#[tactic(auto, using(crate::proofs::Text::behind_blank))]
// Where the blanks end that stand at an offset.
fn blanks_end(text: &[u8], from: usize) -> usize
    requires { from ≤ length text.now }
    ensures within { result ≤ length text.now }
    ensures same { tokens_at text.now result ≡ tokens_at text.now from }
    ensures no_blank { result < length text.now → is_blank (slice_index text.now result) ≡ false }
{
    let mut offset = from;
    while offset < text.len() && is_blank(text[offset]) {
        offset += 1;
    }
    offset
}

// What stands at an offset where no blank does.
fn sight_at(text: &[u8], offset: usize) -> Sight<'_>
    requires within { offset ≤ length text.now }
    requires no_blank { offset < length text.now → is_blank (slice_index text.now offset) ≡ false }
    ensures { Sees text.now offset result }
{
    if offset == text.len() {
        return Sight::End;
    }
    let (_, rest) = text.split_at(offset);
    match first_of(rest) {
        Seen::Token(token, more) => Sight::Token(token, offset + 1 + more),
        Seen::Fault(fault, on) => Sight::Fault(fault, offset + on),
    }
}

fn reader_at(text: &[u8], from: usize) -> Reader<'_>
    requires { from ≤ length text.now }
    ensures { result ≡ tokens_at text.now from }
{
    let offset = blanks_end(text, from);
    let sight = sight_at(text, offset);
    Reader {
        text,
        offset,
        sight,
    }
}

impl<'a> Reader<'a> {
    /// In front of the first token of a text.
    #[tactic(auto, unfolding(crate::specs::Tokens::tokens, crate::specs::Tokens::tokens_at))]
    pub fn new(text: &'a [u8]) -> Self
        ensures { result ≡ tokens text.now }
    {
        reader_at(text, 0)
    }

    /// The token in sight, or none at the end of the text and where no token can be read.
    #[tactic(auto, unfolding(crate::specs::Read::in_sight))]
    pub fn peek(&self) -> Option<Token<'a>>
        ensures token { option_map token_of result ≡ in_sight self.now }
        ensures natural { IfSome result NotNegative }
    {
        match self.sight {
            Sight::Token(token, _) => Some(token),
            Sight::End | Sight::Fault(..) => None,
        }
    }

    /// Whether the text ends here.
    #[tactic(auto, unfolding(crate::specs::Read::is_end))]
    pub fn is_end(&self) -> bool
        ensures { result ≡ is_end self.now }
    {
        matches!(self.sight, Sight::End)
    }

    /// Whether the token in sight is the word or sign that is spelled so.
    #[tactic(auto, unfolding(crate::specs::Read::begins, crate::specs::Read::count))]
    pub fn begins(&self, spelling: &[u8]) -> bool
        ensures which { result ≡ begins spelling.now self.now }
        ensures some { IsTrue result → 0 < count self.now }
    {
        match self.sight {
            Sight::Token(Token::Word(word), _) => spelling == word,
            Sight::Token(Token::Sign(sign), _) => spelling == sign.text(),
            Sight::Token(Token::Number(_), _) => spelling.is_empty(),
            Sight::End | Sight::Fault(..) => false,
        }
    }

    /// Whether the token in sight is a number.
    #[tactic(auto, unfolding(crate::specs::Read::begins_number))]
    pub fn begins_number(&self) -> bool
        ensures { result ≡ begins_number self.now }
    {
        matches!(self.sight, Sight::Token(Token::Number(_), _))
    }

    /// Takes the token in sight, if there is one.
    #[tactic(auto, unfolding(crate::specs::Read::behind, crate::specs::Read::count))]
    pub fn advance(&mut self)
        ensures rest { self.new ≡ behind self.old }
        ensures onward { count self.new ≡ count self.old - 1 }
    {
        if let Sight::Token(_, end) = self.sight {
            *self = reader_at(self.text, end);
        }
    }

    /// The fault of a text that goes on so where no rule takes it.
    #[tactic(auto, unfolding(crate::specs::Read::unexpected))]
    pub fn unexpected(&self) -> Stop
        ensures { result ≡ Stop.Text (unexpected self.now) }
    {
        Stop::Text(match self.sight {
            Sight::Fault(fault, offset) => TextFault { fault, offset },
            Sight::Token(..) | Sight::End => TextFault {
                fault: Fault::Unexpected,
                offset: self.offset,
            },
        })
    }

    /// The fault of a text whose next token opens a level or a turn of a chain too many.
    #[tactic(auto, unfolding(crate::specs::Read::too_deep, crate::specs::Read::unexpected))]
    pub fn too_deep(&self) -> Stop
        ensures { result ≡ Stop.Text (too_deep self.now) }
    {
        match self.sight {
            Sight::Token(..) => Stop::Text(TextFault {
                fault: Fault::TooDeep,
                offset: self.offset,
            }),
            Sight::End | Sight::Fault(..) => self.unexpected(),
        }
    }

    /// Takes the word or sign that is spelled so, or stops.
    #[tactic(auto, unfolding(crate::specs::Read::ask))]
    pub fn ask(&mut self, spelling: &[u8]) -> Result<(), Stop>
        ensures gives { Gives (λ u. tt) result self.new (ask spelling.now self.old) }
        ensures onward { count self.new ≤ count self.old }
        ensures err { OnErr result (self.new ≡ self.old) }
    {
        if self.begins(spelling) {
            self.advance();
            Ok(())
        } else {
            Err(self.unexpected())
        }
    }

    /// `num`: takes a number, or stops.
    #[tactic(auto, unfolding(crate::specs::Read::number, crate::specs::Read::in_sight, crate::specs::Read::behind, crate::specs::Read::unexpected, crate::specs::Read::count))]
    pub fn number(&mut self) -> Result<i64, Stop>
        ensures gives { Gives (λ n. n) result self.new (number self.old) }
        ensures natural { IfOk result (λ n. pos 0 ≤ℤ n) }
        ensures onward { count self.new ≤ count self.old }
        ensures err { OnErr result (self.new ≡ self.old) }
    {
        let Some(Token::Number(value)) = self.peek() else {
            return Err(self.unexpected());
        };
        self.advance();
        Ok(value)
    }

    /// `name`: takes a word that isn't reserved, or stops.
    #[tactic(auto, unfolding(crate::specs::Read::name, crate::specs::Read::in_sight, crate::specs::Read::behind, crate::specs::Read::unexpected, crate::specs::Read::count))]
    pub fn name(&mut self) -> Result<Name, Stop>
        ensures gives { Gives (λ x. x) result self.new (name self.old) }
        ensures onward { count self.new ≤ count self.old }
        ensures err { OnErr result (self.new ≡ self.old) }
    {
        let Some(Token::Word(word)) = self.peek() else {
            return Err(self.unexpected());
        };
        let Some(name) = Name::new(word) else {
            return Err(self.unexpected());
        };
        self.advance();
        Ok(name)
    }

    /// Takes the end of the text, or stops.
    #[tactic(auto, unfolding(crate::specs::Read::ended))]
    pub fn ended(&self) -> Result<(), Stop>
        ensures { Gives (λ u. tt) result self.now (ended self.now) }
    {
        if self.is_end() {
            Ok(())
        } else {
            Err(self.unexpected())
        }
    }
}
