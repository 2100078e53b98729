// Subprograms.
ghost use Rattle.std.specs.Prelude.{IfOk};
ghost use Rattle.grammar.specs.Description.{rule};
ghost use Rattle.tu_token.specs.Rules.{r-formals, r-handler};
ghost use Rattle.tu_expr.specs.Parts.{optional};
ghost use Rattle.tu_tree.specs.SubprogramViews.{kind_view};
ghost use Rattle.tu_flatten_parts.specs.Writes.{Writes};

use crate::blocks::write_block;
use tu_base::Memory;
use tu_flatten_parts::{
    Pieces, write_any_givens, write_any_import, write_ending, write_names, write_post, write_pre,
    write_spec, write_tag,
};
use tu_tree::{
    Class, Formal, Formals, Handler, Head, HeadForm, Rest, Subprogram, SubprogramForm,
    SubprogramKind,
};

fn write_formal(formal: &Formal, out: &mut Pieces) -> Result<(), Memory>
    ensures { IfOk result (λ _. Writes formal.now out.old out.new) }
{
    out.flag(Class::WordVar, formal.is_var)?;
    write_names(&formal.names, out)?;
    out.word(Class::SignColon)?;
    write_spec(&formal.spec, out)?;
    Ok(())
}

fn write_formals(formals: &Formals, out: &mut Pieces) -> Result<(), Memory>
    ensures { IfOk result (λ _. Writes formals.now out.old out.new) }
{
    out.word(Class::SignLeftBracket)?;
    for (i, x) in formals.items.as_slice().iter().enumerate() {
        out.separate(i)?;
        write_formal(x, out)?;
    }
    out.word(Class::SignRightBracket)?;
    Ok(())
}

fn write_any_formals(formals: &Option<Formals>, out: &mut Pieces) -> Result<(), Memory>
    ensures { IfOk result (λ _. Writes (optional (rule r-formals) formals.now) out.old out.new) }
{
    match formals {
        Some(formals) => write_formals(formals, out),
        None => Ok(()),
    }
}

fn write_head(head: &Head, out: &mut Pieces) -> Result<(), Memory>
    ensures { IfOk result (λ _. Writes head.now out.old out.new) }
{
    match &head.form {
        HeadForm::Procedure(name, formals) => {
            out.word(Class::WordProcedure)?;
            out.name(name)?;
            write_any_formals(formals, out)
        }
        HeadForm::Function {
            name,
            formals,
            result,
            spec,
        } => {
            out.word(Class::WordFunction)?;
            out.name(name)?;
            write_any_formals(formals, out)?;
            write_tag(result, out)?;
            out.word(Class::SignColon)?;
            write_spec(spec, out)
        }
    }
}

fn write_any_handler(handler: &Option<Handler>, out: &mut Pieces) -> Result<(), Memory>
    ensures { IfOk result (λ _. Writes (optional (rule r-handler) handler.now) out.old out.new) }
{
    match handler {
        Some(handler) => {
            out.word(Class::WordHandler)?;
            out.word(Class::SignLeftBracket)?;
            out.name(&handler.name)?;
            out.word(Class::SignRightBracket)?;
            write_block(&handler.block, out)?;
            out.end(Class::WordHandler)
        }
        None => Ok(()),
    }
}

fn write_rest(rest: &Rest, out: &mut Pieces) -> Result<(), Memory>
    ensures { IfOk result (λ _. Writes rest.now out.old out.new) }
{
    write_pre(&rest.pre, out)?;
    write_any_givens(&rest.givens, out)?;
    write_post(&rest.post, out)?;
    write_any_handler(&rest.handler, out)?;
    write_block(&rest.block, out)?;
    write_ending(&rest.ending, out)?;
    Ok(())
}

fn write_kind(kind: SubprogramKind, out: &mut Pieces) -> Result<(), Memory>
    ensures { IfOk result (λ _. Writes (kind_view kind) out.old out.new) }
{
    match kind {
        SubprogramKind::Procedure => out.word(Class::WordProcedure),
        SubprogramKind::Function => out.word(Class::WordFunction),
    }
}

/// Adds a subprogram.
pub fn write_subprogram(subprogram: &Subprogram, out: &mut Pieces) -> Result<(), Memory>
    ensures { IfOk result (λ _. Writes subprogram.now out.old out.new) }
{
    match &subprogram.form {
        SubprogramForm::Forward(head, import) => {
            out.word(Class::WordForward)?;
            write_head(head, out)?;
            write_any_import(import, out)
        }
        SubprogramForm::Whole(head, import, rest) => {
            write_head(head, out)?;
            write_any_import(import, out)?;
            write_rest(rest, out)
        }
        SubprogramForm::Body(kind, name, rest) => {
            out.word(Class::WordBody)?;
            write_kind(*kind, out)?;
            out.name(name)?;
            write_rest(rest, out)
        }
    }
}
