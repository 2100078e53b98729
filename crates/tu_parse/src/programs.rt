ghost use Rattle.std.specs.Prelude.{◌≡◌, ◌+◌, ◌*◌, ◌<◌, ◌≤◌, length, IfOk};
ghost use Rattle.grammar.specs.Classes.{is_among};
ghost use Rattle.grammar.specs.Description.{rule};
ghost use Rattle.grammar.specs.Grammar.{first};
ghost use Rattle.grammar.specs.Tree.{n-sequence};
ghost use Rattle.tu_token.specs.ClassNumbers.{number};
ghost use Rattle.tu_token.specs.Table.{table};
ghost use Rattle.tu_token.specs.Rules.{◌⨟◌, body, many, maybe, r-ending, r-export, r-item, r-module, r-program, r-statement, r-subprogram};
ghost use Rattle.tu_expr.specs.Parts.{optional};
ghost use Rattle.tu_tree.specs.Parts.{separated, sequel};
ghost use Rattle.tu_tree.specs.ProgramViews.{item_view, module_part, module_part_view};
ghost use Rattle.tu_reader.specs.Ahead.{weight};
ghost use Rattle.tu_reader.specs.Reads.{Begins, Reads};

use crate::blocks::{BlockReader, begins_statement, block};
use crate::subprograms::subprogram;
use sqlite_items::{Boxed, Items};
use std::alloc::Global;
use tu_reader::{Cursor, Stop};
use tu_tree::{
    Class, Ending, Export, Item, ItemForm, Module, ModulePart, Statement, Subprogram, Tree,
};
use tu_types_reader::{
    constant, ending, invariant, optional_export, optional_import, type_declaration, variable,
};

// The parts of a module, each with whether a semicolon follows, and its end.
type ModuleBody = (Items<(ModulePart, bool)>, Ending);

fn begins_item(class: Class) -> bool
    ensures { result ≡ is_among (number class) (first table (rule r-item)) }
{
    match class {
        Class::WordConst
        | Class::WordVar
        | Class::WordType
        | Class::WordForward
        | Class::WordBody
        | Class::WordProcedure
        | Class::WordFunction
        | Class::WordModule => true,
        _ => begins_statement(class),
    }
}

fn goes_on(tokens: &Cursor<'_>) -> bool
    ensures { Begins (rule r-item) tokens.now result }
{
    match tokens.class() {
        Some(class) => begins_item(class),
        None => false,
    }
}

fn begins_module_part(class: Class) -> bool
    ensures { result ≡ is_among (number class) (first table module_part) }
{
    match class {
        Class::WordConst
        | Class::WordVar
        | Class::WordType
        | Class::WordForward
        | Class::WordBody
        | Class::WordProcedure
        | Class::WordFunction
        | Class::WordInvariant => true,
        _ => begins_statement(class),
    }
}

fn module_goes_on(tokens: &Cursor<'_>) -> bool
    ensures { Begins module_part tokens.now result }
{
    match tokens.class() {
        Some(class) => begins_module_part(class),
        None => false,
    }
}

/// A program.
pub fn program(alloc: Global, tokens: &mut Cursor<'_>, depth: u32) -> Result<Tree, Stop>
    requires { weight tokens.old + 32 ≤ depth }
    ensures { Reads (rule r-program) (λ x. x) result tokens.old tokens.new }
{
    let at = tokens.mark();
    let mut items = Items::new(alloc);
    while goes_on(tokens) {
        let item = item(alloc, tokens, depth)?;
        let semicolon = tokens.eat(Class::SignSemicolon);
        items.push((item, semicolon))?;
    }
    Ok(Tree { at, items })
}

fn item(alloc: Global, tokens: &mut Cursor<'_>, depth: u32) -> Result<Item, Stop>
    requires { weight tokens.old + 31 ≤ depth }
    ensures reads { Reads (rule r-item) (λ x. x) result tokens.old tokens.new }
    ensures less { IfOk result (λ _. weight tokens.new + 29 ≤ weight tokens.old) }
{
    let at = tokens.mark();
    let form = item_form(alloc, tokens, depth)?;
    Ok(Item { at, form })
}

fn item_form(alloc: Global, tokens: &mut Cursor<'_>, depth: u32) -> Result<ItemForm, Stop>
    requires { weight tokens.old + 30 ≤ depth }
    ensures reads { Reads (body r-item) item_view result tokens.old tokens.new }
    ensures less { IfOk result (λ _. weight tokens.new + 30 ≤ weight tokens.old) }
{
    let Some(class) = tokens.class() else {
        return Err(Stop::Unexpected);
    };
    match class {
        Class::WordConst => {
            let part = constant(alloc, tokens, depth)?;
            Ok(ItemForm::Const(part))
        }
        Class::WordVar => {
            let part = variable(alloc, tokens, depth)?;
            Ok(ItemForm::Var(part))
        }
        Class::WordType => {
            let part = type_declaration(alloc, tokens, depth)?;
            Ok(ItemForm::Type(part))
        }
        Class::WordForward | Class::WordBody | Class::WordProcedure | Class::WordFunction => {
            let part = boxed_subprogram(alloc, tokens, depth)?;
            Ok(ItemForm::Subprogram(part))
        }
        Class::WordModule => {
            let part = boxed_module(alloc, tokens, depth)?;
            Ok(ItemForm::Module(part))
        }
        _ => {
            let part = statement(alloc, tokens, depth)?;
            Ok(ItemForm::Statement(part))
        }
    }
}

fn boxed_subprogram(
    alloc: Global,
    tokens: &mut Cursor<'_>,
    depth: u32,
) -> Result<Boxed<Subprogram>, Stop>
    requires { weight tokens.old + 2 ≤ depth }
    ensures reads { Reads (rule r-subprogram) (λ x. x) result tokens.old tokens.new }
    ensures less { IfOk result (λ _. weight tokens.new + 30 ≤ weight tokens.old) }
{
    let part = subprogram(alloc, tokens, depth)?;
    let part = Boxed::new(alloc, part)?;
    Ok(part)
}

fn boxed_module(alloc: Global, tokens: &mut Cursor<'_>, depth: u32) -> Result<Boxed<Module>, Stop>
    requires { weight tokens.old + 1 ≤ depth }
    ensures reads { Reads (rule r-module) (λ x. x) result tokens.old tokens.new }
    ensures less { IfOk result (λ _. weight tokens.new + 31 ≤ weight tokens.old) }
{
    let part = module(alloc, tokens, depth)?;
    let part = Boxed::new(alloc, part)?;
    Ok(part)
}

fn statement(alloc: Global, tokens: &mut Cursor<'_>, depth: u32) -> Result<Statement, Stop>
    requires { weight tokens.old + 30 ≤ depth }
    ensures reads { Reads (rule r-statement) (λ x. x) result tokens.old tokens.new }
    ensures less { IfOk result (λ _. weight tokens.new + 30 ≤ weight tokens.old) }
{
    BlockReader {
        alloc,
        depth,
        block,
    }
    .statement(tokens)
}

fn module(alloc: Global, tokens: &mut Cursor<'_>, depth: u32) -> Result<Module, Stop>
    requires { weight tokens.old + 1 ≤ depth }
    ensures reads { Reads (rule r-module) (λ x. x) result tokens.old tokens.new }
    ensures less { IfOk result (λ _. weight tokens.new + 31 ≤ weight tokens.old) }
{
    let at = tokens.mark();
    tokens.expect(Class::WordModule)?;
    let name = tokens.leaf(alloc, Class::Name)?;
    let import = optional_import(alloc, tokens)?;
    let (export, body) = exporting_body(alloc, tokens, depth)?;
    let (parts, ending) = body;
    Ok(Module {
        at,
        name,
        import,
        export,
        parts,
        ending,
    })
}

// What a module exports, if it says so, and what stands behind that.
fn exporting_body(
    alloc: Global,
    tokens: &mut Cursor<'_>,
    depth: u32,
) -> Result<(Option<Export>, ModuleBody), Stop>
    requires { weight tokens.old + 30 ≤ depth }
    ensures reads { Reads (maybe (rule r-export) ⨟ (many (separated module_part) ⨟ rule r-ending)) (λ x. n-sequence (optional (rule r-export) x.0) (n-sequence (sequel module_part module_part_view x.1.0) x.1.1)) result tokens.old tokens.new }
    ensures less { IfOk result (λ _. weight tokens.new ≤ weight tokens.old) }
{
    let export = optional_export(alloc, tokens)?;
    let body = module_body(alloc, tokens, depth)?;
    Ok((export, body))
}

fn module_body(alloc: Global, tokens: &mut Cursor<'_>, depth: u32) -> Result<ModuleBody, Stop>
    requires { weight tokens.old + 30 ≤ depth }
    ensures reads { Reads (many (separated module_part) ⨟ rule r-ending) (λ x. n-sequence (sequel module_part module_part_view x.0) x.1) result tokens.old tokens.new }
    ensures less { IfOk result (λ _. weight tokens.new ≤ weight tokens.old) }
{
    let parts = module_parts(alloc, tokens, depth)?;
    let ending = ending(alloc, tokens)?;
    Ok((parts, ending))
}

fn module_parts(
    alloc: Global,
    tokens: &mut Cursor<'_>,
    depth: u32,
) -> Result<Items<(ModulePart, bool)>, Stop>
    requires { weight tokens.old + 30 ≤ depth }
    ensures reads { Reads (many (separated module_part)) (λ parts. sequel module_part module_part_view parts) result tokens.old tokens.new }
    ensures less { IfOk result (λ _. weight tokens.new ≤ weight tokens.old) }
{
    let mut parts = Items::new(alloc);
    while module_goes_on(tokens) {
        let part = module_part(alloc, tokens, depth)?;
        let semicolon = tokens.eat(Class::SignSemicolon);
        parts.push((part, semicolon))?;
    }
    Ok(parts)
}

fn module_part(alloc: Global, tokens: &mut Cursor<'_>, depth: u32) -> Result<ModulePart, Stop>
    requires { weight tokens.old + 30 ≤ depth }
    ensures reads { Reads module_part module_part_view result tokens.old tokens.new }
    ensures less { IfOk result (λ _. weight tokens.new + 30 ≤ weight tokens.old) }
{
    let Some(class) = tokens.class() else {
        return Err(Stop::Unexpected);
    };
    match class {
        Class::WordConst => {
            let part = constant(alloc, tokens, depth)?;
            Ok(ModulePart::Const(part))
        }
        Class::WordVar => {
            let part = variable(alloc, tokens, depth)?;
            Ok(ModulePart::Var(part))
        }
        Class::WordType => {
            let part = type_declaration(alloc, tokens, depth)?;
            Ok(ModulePart::Type(part))
        }
        Class::WordForward | Class::WordBody | Class::WordProcedure | Class::WordFunction => {
            let part = boxed_subprogram(alloc, tokens, depth)?;
            Ok(ModulePart::Subprogram(part))
        }
        Class::WordInvariant => {
            let part = invariant(alloc, tokens, depth)?;
            Ok(ModulePart::Invariant(part))
        }
        _ => {
            let part = statement(alloc, tokens, depth)?;
            Ok(ModulePart::Statement(part))
        }
    }
}
