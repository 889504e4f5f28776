//! The text of a whole query.

ghost use Rattle.std.specs.Prelude.{◌≡◌, ◌∷◌, ◌++◌, codes, map, IfOk, OnOk};
ghost use Rattle.wsm_tokens.specs.Tokens.{Word};
ghost use Rattle.wsm_query.specs.Adds.{adds};
ghost use Rattle.wsm_query.specs.Print.{condition_tokens, expr_tokens, output_tokens, print, with_commas};
ghost use Rattle.wsm_query.specs.Seen.{seen};

use crate::print_clauses::{
    budget, clock, columns, condition, every, fields, form_word, mode_word, names, shape, sources,
};
use crate::print_tokens::{sign, word};
use crate::query::{Output, Query};
use std::alloc::{AllocError, Global};
use wsm_tokens::Sign;

/// The text of a query: its tokens, with one space between each two. For users of the library; the
/// program prints no query.
#[tactic(auto, using(crate::proofs::Written::parts), unfolding(crate::specs::Print::print))]
pub fn print(alloc: Global, query: &Query) -> Result<Vec<u8>, AllocError>
    ensures { IfOk result (λ bytes. bytes.items ≡ print (seen query.now)) }
{
    let mut text = Vec::from_slice(alloc, b"KEYS")?;
    names(&mut text, &query.keys)?;
    sign(&mut text, Sign::Semicolon)?;
    fields(&mut text, &query.fields)?;
    sources(&mut text, &query.sources)?;
    clock(&mut text, query.clock)?;
    budget(&mut text, query.budget)?;
    selection(&mut text, query)?;
    output(&mut text, query.output)?;
    Ok(text)
}

// What is selected, and of which records and panes.
#[tactic(auto, using(crate::proofs::Written::parts))]
fn selection(text: &mut Vec<u8>, query: &Query) -> Result<(), AllocError>
    ensures { let q = seen query.now in OnOk result (text.new.items ≡ adds text.old.items
        (Word (codes "SELECT") ∷ with_commas (map expr_tokens q.columns)
        ++ condition_tokens (codes "WHERE") q.condition ++ condition_tokens (codes "HAVING") q.having)) }
{
    word(text, b"SELECT")?;
    columns(text, &query.columns)?;
    condition(text, b"WHERE", &query.condition)?;
    condition(text, b"HAVING", &query.having)
}

// The windows, when they fire, and what is written of them.
#[tactic(auto, using(crate::proofs::Written::parts))]
fn output(text: &mut Vec<u8>, output: Output) -> Result<(), AllocError>
    ensures { OnOk result (text.new.items ≡ adds text.old.items (output_tokens output)) }
{
    word(text, b"WINDOW")?;
    shape(text, output.shape)?;
    word(text, mode_word(output.mode))?;
    every(text, b"EARLY", output.early)?;
    every(text, b"LATE", output.late)?;
    word(text, b"EMIT")?;
    word(text, form_word(output.form))?;
    sign(text, Sign::Semicolon)
}
