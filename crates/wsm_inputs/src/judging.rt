//! Judging a program: what `verify` and `explain` write.

ghost use Rattle.std.specs.Prelude.{◌≡◌, ◌++◌, Ok, Err, false, true, is_ok, IfOk, IfErr, OnOk, string_bytes};
ghost use Rattle.wsm_rules.specs.Rules.{judge as judge_of};
ghost use Rattle.wsm_inputs.specs.Ends.{hides_memory};
ghost use Rattle.wsm_inputs.specs.Inputs.{judged};
ghost use Rattle.wsm_inputs.specs.Judged.{bytes_judged};
ghost use Rattle.wsm_inputs.specs.Verdict.{listing, verdict, Judges, Reports, StopsBy};

use crate::end::End;
use crate::input::Input;
use crate::inputs::{costed_of, verified};
use std::alloc::{AllocError, Global};
use wsm_bytecode::{Program, disassemble};
use wsm_csv::{Device, write_out};
use wsm_rules::Verified;
use wsm_verifier::Costed;

/// Judges the program of an input, and answers whether it is accepted. A line is written:
/// `accepted,RECORD,PANE,HELD` with the numbers that the program needs, or
/// `rejected,PART,PLACE,NAME` with its first fault, PART being `where`, `update`, `fire` or `budget`. To
/// explain, its listing is written first.
///
/// # Errors
///
/// [`End::Refused`] where the text is no query or a check refuses it, or the bytes spell no program: then
/// nothing is written. Nothing is written for want of memory either. [`End::WriteFailed`] comes only where
/// the device has failed: it took a beginning of the text.
pub fn judge_input<D: Device>(
    alloc: Global,
    input: Input<'_>,
    explain: bool,
    out: &mut D,
) -> Result<bool, End>
    requires { D.has_failed out.old ≡ false }
    ensures { Judges (judged input.entry) explain (D.taken out.old) (D.taken out.new) (D.is_flushed out.new) (D.has_failed out.new) result }
{
    let costed = costed_of(alloc, input)?;
    write_report(alloc, costed, explain, out)
}

/// Judges the program that bytes spell, as [`judge_input`] does.
///
/// # Errors
///
/// As [`judge_input`].
pub fn judge<D: Device>(
    alloc: Global,
    program: &[u8],
    explain: bool,
    out: &mut D,
) -> Result<bool, End>
    requires { D.has_failed out.old ≡ false }
    ensures { Judges (bytes_judged program.now) explain (D.taken out.old) (D.taken out.new) (D.is_flushed out.new) (D.has_failed out.new) result }
{
    judge_input(alloc, Input::Program(program), explain, out)
}

// Writes what is said of a program, and answers whether it is accepted.
fn write_report<D: Device>(
    alloc: Global,
    costed: Costed,
    explain: bool,
    out: &mut D,
) -> Result<bool, End>
    requires { D.has_failed out.old ≡ false }
    ensures reports { IfOk result (Reports (Ok costed) explain (D.taken out.old) (D.taken out.new)) }
    ensures flushed { OnOk result (D.is_flushed out.new ≡ true) }
    ensures stops { IfErr result (StopsBy (Ok costed) explain (D.taken out.old) (D.taken out.new)) }
    ensures write_failed { result ≡ Err End.WriteFailed → D.has_failed out.new ≡ true }
    ensures memory_apart { IfErr result (λ end. hides_memory end ≡ false) }
{
    let mut text = listing(alloc, costed.program(), explain)?;
    let accepted = add_verdict(alloc, costed, &mut text)?;
    write_out(out, text.as_bytes())?;
    out.flush()?;
    Ok(accepted)
}

// The listing of a program that is to be explained; else nothing.
fn listing(alloc: Global, program: &Program, explain: bool) -> Result<String, AllocError>
    ensures { IfOk result (λ text. string_bytes text ≡ listing explain program.now) }
{
    if explain {
        disassemble(alloc, program)
    } else {
        Ok(String::new(alloc))
    }
}

// Adds the line of a judgement, and tells whether the program is accepted.
fn add_verdict(alloc: Global, costed: Costed, text: &mut String) -> Result<bool, End>
    ensures accepted { IfOk result (λ accepted. accepted ≡ is_ok (judge_of costed)) }
    ensures line { OnOk result (string_bytes text.new ≡ string_bytes text.old ++ verdict (judge_of costed)) }
    ensures memory { IfErr result (λ end. end ≡ End.Memory) }
{
    match verified(alloc, costed) {
        Ok(verified) => {
            add_accepted(verified, text)?;
            Ok(true)
        }
        Err(End::Rejected(rejection)) => {
            write!(text, "rejected,{rejection}\n")?;
            Ok(false)
        }
        Err(_) => Err(End::Memory),
    }
}

// Adds the line of an accepted program, which is let go.
fn add_accepted(verified: Verified, text: &mut String) -> Result<(), AllocError>
    ensures { OnOk result (string_bytes text.new ≡ string_bytes text.old ++ verdict (judge_of verified)) }
{
    add_costs(&verified, text)
}

// Adds what an accepted program costs.
fn add_costs(verified: &Verified, text: &mut String) -> Result<(), AllocError>
    ensures { OnOk result (string_bytes text.new ≡ string_bytes text.old ++ verdict (judge_of verified.now)) }
{
    let _accepted = verified.program();
    let need = verified.costs();
    write!(
        text,
        "accepted,{},{},{}\n",
        need.per_record, need.per_pane, need.held
    )
}
