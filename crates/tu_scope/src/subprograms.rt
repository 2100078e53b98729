// Subprograms.
ghost use Rattle.std.specs.Prelude.{◌≡◌, [], ◌∷◌, ◌++◌, OnOk};
ghost use Rattle.grammar.specs.Description.{rule};
ghost use Rattle.tu_token.specs.Rules.{r-handler, r-import};
ghost use Rattle.tu_expr.specs.Leaves.{leaf_view};
ghost use Rattle.tu_expr.specs.Parts.{mark_of, optional};
ghost use Rattle.tu_tree.specs.SubprogramViews.{kind_view};
ghost use Rattle.tu_scope_parts.specs.Adds.{Adds, Extends};
ghost use Rattle.tu_scope_parts.specs.Walk.{begun, end_name, ended, events, head_name, imports, kind, name_at, named_scope, rest_end, visibility};

use crate::blocks::{number_of, walk_block, walk_body};
use tu_base::Memory;
use tu_scope_parts::{
    Events, begin_subprogram, declare, end_forward, end_scope, head_name, list_any_import, name,
    walk_any_givens, walk_head, walk_post, walk_pre,
};
use tu_scope_rules::{BodyKind, Context, Event};
use tu_token::Class;
use tu_tree::{
    Block, Ending, Handler, Head, Import, Leaf, Rest, Subprogram, SubprogramForm, SubprogramKind,
};

// The scope of a handler, before its block goes on in it.
fn begin_handler<'a>(name: &'a Leaf, block: &Block, out: &mut Events<'a>) -> Result<(), Memory>
    ensures { OnOk result (Extends (named_scope (mark_of block.now).number (leaf_view Class.Name name.now) []) out.old out.new) }
{
    out.open(number_of(block))?;
    declare(name, out)?;
    out.close()?;
    Ok(())
}

fn walk_handler<'a>(handler: &'a Handler, out: &mut Events<'a>) -> Result<(), Memory>
    ensures { OnOk result (Adds Context.Elsewhere handler.now out.old out.new) }
{
    begin_handler(&handler.name, &handler.block, out)?;
    walk_block(&handler.block, out)?;
    Ok(())
}

fn walk_any_handler<'a>(handler: &'a Option<Handler>, out: &mut Events<'a>) -> Result<(), Memory>
    ensures { OnOk result (Adds Context.Elsewhere (optional (rule r-handler) handler.now) out.old out.new) }
{
    match handler {
        Some(handler) => walk_handler(handler, out),
        None => Ok(()),
    }
}

fn walk_rest<'a>(rest: &'a Rest, out: &mut Events<'a>) -> Result<(), Memory>
    ensures { OnOk result (Adds Context.Elsewhere rest.now out.old out.new) }
{
    walk_pre(&rest.pre, out)?;
    walk_any_givens(&rest.givens, out)?;
    walk_post(&rest.post, out)?;
    walk_any_handler(&rest.handler, out)?;
    walk_body(&rest.block, out)?;
    Ok(())
}

fn end_name<'a>(ending: &'a Ending) -> &'a Leaf
    ensures { leaf_view Class.Name result.now ≡ end_name ending.now }
{
    &ending.name
}

/// Ends the scope of what was opened by a name.
pub fn end_named<'a>(
    opened: &'a Leaf,
    ending: &'a Ending,
    out: &mut Events<'a>,
) -> Result<(), Memory>
    ensures { OnOk result (Extends (ended (leaf_view Class.Name opened.now) (end_name ending.now)) out.old out.new) }
{
    end_scope(opened, end_name(ending), out)
}

fn end_rest<'a>(opened: &'a Leaf, rest: &'a Rest, out: &mut Events<'a>) -> Result<(), Memory>
    ensures { OnOk result (Extends (ended (leaf_view Class.Name opened.now) (rest_end rest.now)) out.old out.new) }
{
    end_named(opened, &rest.ending, out)
}

fn end_head<'a>(head: &'a Head, rest: &'a Rest, out: &mut Events<'a>) -> Result<(), Memory>
    ensures { OnOk result (Extends (ended (head_name head.now) (rest_end rest.now)) out.old out.new) }
{
    end_rest(head_name(head), rest, out)
}

// The head of a subprogram, its import list, and where its scope begins.
fn begin_head<'a>(
    scope: u32,
    head: &'a Head,
    import: &'a Option<Import>,
    out: &mut Events<'a>,
) -> Result<(), Memory>
    ensures { OnOk result (Extends (events Context.Elsewhere head.now ++ imports scope (optional (rule r-import) import.now) ++ begun scope head.now (visibility (optional (rule r-import) import.now))) out.old out.new) }
{
    walk_head(head, out)?;
    list_any_import(scope, import, out)?;
    begin_subprogram(scope, head, import, out)?;
    Ok(())
}

fn body_kind(of: SubprogramKind) -> BodyKind
    ensures { result ≡ kind (kind_view of) }
{
    match of {
        SubprogramKind::Procedure => BodyKind::Procedure,
        SubprogramKind::Function => BodyKind::Function,
    }
}

fn begin_body<'a>(
    of: SubprogramKind,
    leaf: &'a Leaf,
    scope: u32,
    out: &mut Events<'a>,
) -> Result<(), Memory>
    ensures { OnOk result (Extends (Event.Body (name_at (leaf_view Class.Name leaf.now)) (kind (kind_view of)) scope ∷ []) out.old out.new) }
{
    out.push(Event::Body(name(leaf), body_kind(of), scope))
}

/// Adds the events of a subprogram.
pub fn walk_subprogram<'a>(subprogram: &'a Subprogram, out: &mut Events<'a>) -> Result<(), Memory>
    ensures { OnOk result (Adds Context.Elsewhere subprogram.now out.old out.new) }
{
    let scope = subprogram.at.number;
    match &subprogram.form {
        SubprogramForm::Forward(head, import) => {
            begin_head(scope, head, import, out)?;
            end_forward(scope, head, import, out)?;
            Ok(())
        }
        SubprogramForm::Whole(head, import, rest) => {
            begin_head(scope, head, import, out)?;
            walk_rest(rest, out)?;
            end_head(head, rest, out)?;
            Ok(())
        }
        SubprogramForm::Body(of, leaf, rest) => {
            begin_body(*of, leaf, scope, out)?;
            walk_rest(rest, out)?;
            end_rest(leaf, rest, out)?;
            Ok(())
        }
    }
}
