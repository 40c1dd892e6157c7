ghost use Rattle.std.specs.Prelude.{◌≡◌, IfOk, IsErrOf, List};
ghost use Rattle.bern_base.specs.declared.raw.Form.{Form};
ghost use Rattle.bern_base.specs.declared.raw.RawNest.{RawNest};
ghost use Rattle.job_text.specs.declared.tokens.Token.{Token};
ghost use Rattle.job_text.specs.Lines.{trimmed, words};
ghost use Rattle.job_text.specs.Tokens.{Lexes};
ghost use Rattle.job_text.specs.Grammar.{IsNest};
ghost use Rattle.job_text.specs.Forms.{IsForm};
ghost use Rattle.job_text.specs.WordReading.{form_of};
ghost use Rattle.job_text.specs.Reading.{Gives};

use crate::forms::word_form;
use crate::lexer::lex;
use crate::nests::nest;
use crate::stop::Stop;
use crate::tokens::Token;
use crate::words::words;
use bern_base::{Form, RawNest};
use std::alloc::Global;

/// The form of what a line says.
///
/// `tokens` is a list that is free to be filled.
pub(crate) fn line_form(alloc: Global, tokens: &mut Vec<Token>, text: &[u8]) -> Result<Form, Stop>
    requires { trimmed text.now ≡ text.now }
    ensures found { IfOk result (λ form. IsForm form text.now) }
    ensures none { IsErrOf result Stop.NoForm → (form : Form) → ¬ (IsForm form text.now) }
{
    // No line of words begins with these letters.
    if text.starts_with(b"doany") {
        match nest_line(alloc, tokens, text) {
            Ok(nest) => Ok(Form::Nest(nest)),
            Err(stop) => Err(stop),
        }
    } else {
        word_line(alloc, text)
    }
}

fn nest_line(alloc: Global, tokens: &mut Vec<Token>, text: &[u8]) -> Result<RawNest, Stop>
    ensures found { IfOk result (λ nest. (tokens : List Token) × Lexes text.now tokens × IsNest nest tokens) }
    ensures none { IsErrOf result Stop.NoForm → (nest : RawNest) (ts : List Token) → Lexes text.now ts → ¬ (IsNest nest ts) }
{
    lex(text, tokens)?;
    nest(alloc, tokens.as_slice())
}

fn word_line(alloc: Global, text: &[u8]) -> Result<Form, Stop>
    ensures { Gives (λ form. form) result (form_of (words text.now)) }
{
    let words = words(alloc, text)?;
    word_form(alloc, words.as_slice())
}
