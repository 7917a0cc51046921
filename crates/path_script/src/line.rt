//! From a line to its form.

ghost use Rattle.std.specs.Prelude.{◌≡◌, ◌≢◌, ◌∷◌, ℕ, List, IfOk, OnErr};
ghost use Rattle.path_lex.specs.Names.{IsName};
ghost use Rattle.path_fields.specs.Splits.{HasNone};
ghost use Rattle.path_script.specs.ScriptLines.{ScriptLine, line_of, line_text, LineFits};

use path_lex::is_name;
use path_lines::{Stop, Wanted, after, end, keyword, read_verb, stop_at, word};
use path_model::Verb;

/// A line of a script.
#[derive(Clone, Copy, Debug)]
pub enum Form<'a> {
    /// A process of this name begins.
    Process(&'a [u8]),
    /// The process enters the operation of this name.
    Enter(&'a [u8]),
    /// It uses what it entered last.
    Use(Verb),
    /// It leaves what it entered last.
    Leave,
    /// It ends.
    End,
}

/// The name that follows a space and is the whole rest of a line.
fn named(rest: &[u8], wanted: Wanted) -> Result<&[u8], Stop>
    ensures ok { IfOk result (λ name. (rest.now ≡ 32 ∷ name.now) × IsName name.now) }
    ensures err { OnErr result ((name : List ℕ) → IsName name → rest.now ≢ 32 ∷ name) }
{
    let name = after(rest, b" ", Wanted::Space)?;
    if is_name(name) {
        return Ok(name);
    }
    let (first, behind) = word(name);
    if is_name(first) {
        Err(stop_at(behind, Wanted::End))
    } else {
        Err(stop_at(name, wanted))
    }
}

/// The form of a line, which must have no line feed; else where it stops having one. Names aren't looked up. One pass over the line;
/// allocates nothing.
pub fn read_form(line: &[u8]) -> Result<Form<'_>, Stop>
    requires { HasNone 10 line.now }
    ensures ok { IfOk result (λ f. (line.now ≡ line_text (line_of f)) × LineFits (line_of f)) }
    ensures err { OnErr result ((l : ScriptLine) → LineFits l → line.now ≢ line_text l) }
{
    if let Some(rest) = keyword(line, b"use") {
        let rest = after(rest, b" ", Wanted::Space)?;
        let (verb, _) = read_verb(rest)?;
        return Ok(Form::Use(verb));
    }
    if let Some(rest) = keyword(line, b"enter") {
        let name = named(rest, Wanted::Operation)?;
        return Ok(Form::Enter(name));
    }
    if let Some(rest) = keyword(line, b"process") {
        let name = named(rest, Wanted::ProcessName)?;
        return Ok(Form::Process(name));
    }
    if let Some(rest) = keyword(line, b"leave") {
        end(rest)?;
        return Ok(Form::Leave);
    }
    let Some(rest) = keyword(line, b"end") else {
        return Err(stop_at(line, Wanted::Step));
    };
    end(rest)?;
    Ok(Form::End)
}
