ghost use Rattle.std.specs.Prelude.{◌≡◌, ◌+◌, ◌*◌, ◌<◌, ◌≤◌, length, true, IfOk};
ghost use Rattle.grammar.specs.Description.{rule};
ghost use Rattle.grammar.specs.Tree.{n-sequence, n-token};
ghost use Rattle.tu_token.specs.Rules.{◌⨟◌, t, maybe, listed, body, r-bind, r-binding, r-const, r-spec, r-start, r-type, r-var};
ghost use Rattle.tu_token.specs.declared.class.Class.TheVariants.{SignAssign, SignColon, SignRightBracket};
ghost use Rattle.tu_expr.specs.Parts.{listing};
ghost use Rattle.tu_tree.specs.DeclarationViews.{start_view, started_view, typed_view};
ghost use Rattle.tu_reader.specs.Ahead.{weight, HasRoom};
ghost use Rattle.tu_reader.specs.Nests.{Nests};
ghost use Rattle.tu_reader.specs.Reads.{Reads};
ghost use Rattle.tu_types_reader.specs.Variables.{variables, variables_view};

use crate::naming::names;
use crate::types::spec;
use sqlite_items::{Boxed, Items};
use std::alloc::Global;
use tu_base::Held;
use tu_reader::{Cursor, Stop, expr, path};
use tu_tree::{Bind, Binding, Class, Const, Spec, Start, StartForm, TypeDeclaration, Var, VarForm};

/// The declaration of a constant.
pub fn constant(alloc: Global, tokens: &mut Cursor<'_>, depth: u32) -> Result<Const, Stop>
    requires { weight tokens.old + 1 ≤ depth }
    ensures reads { Reads (rule r-const) (λ x. x) result tokens.old tokens.new }
    ensures less { IfOk result (λ _. weight tokens.new + 31 ≤ weight tokens.old) }
{
    let at = tokens.mark();
    tokens.expect(Class::WordConst)?;
    let name = tokens.leaf(alloc, Class::Name)?;
    let spec = typed(alloc, tokens, depth)?;
    let spec = Held::new(spec);
    tokens.expect(Class::SignAssign)?;
    let start = start(alloc, tokens, depth)?;
    let spec = spec.into_inner();
    Ok(Const {
        at,
        name,
        spec,
        start,
    })
}

fn typed(alloc: Global, tokens: &mut Cursor<'_>, depth: u32) -> Result<Option<Spec>, Stop>
    requires { weight tokens.old + 1 ≤ depth }
    ensures reads { Reads (maybe (t SignColon ⨟ rule r-spec)) typed_view result tokens.old tokens.new }
    ensures less { IfOk result (λ _. weight tokens.new ≤ weight tokens.old) }
{
    if tokens.eat(Class::SignColon) {
        let spec = spec(alloc, tokens, depth)?;
        return Ok(Some(spec));
    }
    Ok(None)
}

fn started(alloc: Global, tokens: &mut Cursor<'_>, depth: u32) -> Result<Option<Start>, Stop>
    requires { weight tokens.old + 1 ≤ depth }
    ensures reads { Reads (maybe (t SignAssign ⨟ rule r-start)) started_view result tokens.old tokens.new }
    ensures less { IfOk result (λ _. weight tokens.new ≤ weight tokens.old) }
{
    if tokens.eat(Class::SignAssign) {
        let start = start(alloc, tokens, depth)?;
        return Ok(Some(start));
    }
    Ok(None)
}

/// The declaration of variables or collections.
pub fn variable(alloc: Global, tokens: &mut Cursor<'_>, depth: u32) -> Result<Var, Stop>
    requires { weight tokens.old + 1 ≤ depth }
    ensures reads { Reads (rule r-var) (λ x. x) result tokens.old tokens.new }
    ensures less { IfOk result (λ _. weight tokens.new + 31 ≤ weight tokens.old) }
{
    let at = tokens.mark();
    tokens.expect(Class::WordVar)?;
    let names = names(alloc, tokens)?;
    let form = variable_form(alloc, tokens, depth)?;
    Ok(Var { at, names, form })
}

fn variable_form(alloc: Global, tokens: &mut Cursor<'_>, depth: u32) -> Result<VarForm, Stop>
    requires { weight tokens.old + 1 ≤ depth }
    ensures reads { Reads variables variables_view result tokens.old tokens.new }
    ensures less { IfOk result (λ _. weight tokens.new ≤ weight tokens.old) }
{
    if tokens.sees(Class::SignAssign) {
        tokens.skip(Class::SignAssign);
        let value = expr(alloc, tokens, depth)?;
        return Ok(VarForm::Started(Boxed::new(alloc, value)?));
    }
    tokens.expect(Class::SignColon)?;
    if tokens.sees(Class::WordCollection) {
        tokens.skip(Class::WordCollection);
        tokens.expect(Class::WordOf)?;
        let spec = spec(alloc, tokens, depth)?;
        return Ok(VarForm::Collection(spec));
    }
    let spec = spec(alloc, tokens, depth)?;
    let spec = Held::new(spec);
    let start = started(alloc, tokens, depth)?;
    let spec = spec.into_inner();
    Ok(VarForm::Typed(spec, start))
}

/// The declaration of a type.
pub fn type_declaration(
    alloc: Global,
    tokens: &mut Cursor<'_>,
    depth: u32,
) -> Result<TypeDeclaration, Stop>
    requires { weight tokens.old + 1 ≤ depth }
    ensures reads { Reads (rule r-type) (λ x. x) result tokens.old tokens.new }
    ensures less { IfOk result (λ _. weight tokens.new + 31 ≤ weight tokens.old) }
{
    let at = tokens.mark();
    tokens.expect(Class::WordType)?;
    let name = tokens.leaf(alloc, Class::Name)?;
    tokens.expect(Class::SignColon)?;
    let spec = spec(alloc, tokens, depth)?;
    Ok(TypeDeclaration { at, name, spec })
}

/// Names for parts of variables.
pub fn bind(alloc: Global, tokens: &mut Cursor<'_>, depth: u32) -> Result<Bind, Stop>
    requires { weight tokens.old + 1 ≤ depth }
    ensures reads { Reads (rule r-bind) (λ x. x) result tokens.old tokens.new }
    ensures less { IfOk result (λ _. weight tokens.new + 31 ≤ weight tokens.old) }
{
    let at = tokens.mark();
    tokens.expect(Class::WordBind)?;
    let first = binding(alloc, tokens, depth)?;
    let first = Held::new(first);
    let mut more = Items::new(alloc);
    while tokens.eat(Class::SignComma) {
        let next = binding(alloc, tokens, depth)?;
        more.push(next)?;
    }
    let first = first.into_inner();
    Ok(Bind { at, first, more })
}

fn binding(alloc: Global, tokens: &mut Cursor<'_>, depth: u32) -> Result<Binding, Stop>
    requires { weight tokens.old + 1 ≤ depth }
    ensures reads { Reads (rule r-binding) (λ x. x) result tokens.old tokens.new }
    ensures less { IfOk result (λ _. weight tokens.new + 31 ≤ weight tokens.old) }
{
    let at = tokens.mark();
    let is_var = tokens.eat(Class::WordVar);
    let name = tokens.leaf(alloc, Class::Name)?;
    tokens.expect(Class::WordTo)?;
    let path = path(alloc, tokens, depth)?;
    Ok(Binding {
        at,
        is_var,
        name,
        path,
    })
}

/// The functions for what a variable begins with. The values of its parts are read by a function value.
#[derive(Clone, Copy)]
pub struct StartReader<S> {
    pub alloc: Global,
    /// Above the weight of what is left.
    pub depth: u32,
    pub start: S,
}

impl<S: Fn(Global, &mut Cursor<'_>, u32) -> Result<Start, Stop>> StartReader<S> {
    fn inner(&self, tokens: &mut Cursor<'_>) -> Result<Start, Stop>
        requires nests { Nests r-start self.now.depth (S.pre self.now.start) (S.post self.now.start) }
        requires room { HasRoom self.now.depth 40 tokens.old }
        ensures reads { Reads (rule r-start) (λ x. x) result tokens.old tokens.new }
        ensures less { IfOk result (λ _. weight tokens.new ≤ weight tokens.old + 1) }
    {
        (self.start)(self.alloc, tokens, self.depth)
    }

    /// What one variable begins with.
    pub fn whole(&self, tokens: &mut Cursor<'_>) -> Result<Start, Stop>
        requires nests { Nests r-start self.now.depth (S.pre self.now.start) (S.post self.now.start) }
        requires room { HasRoom self.now.depth 25 tokens.old }
        ensures reads { Reads (rule r-start) (λ x. x) result tokens.old tokens.new }
        ensures less { IfOk result (λ _. weight tokens.new + 20 ≤ weight tokens.old) }
    {
        let at = tokens.mark();
        let form = self.form(tokens)?;
        Ok(Start { at, form })
    }

    fn form(&self, tokens: &mut Cursor<'_>) -> Result<StartForm, Stop>
        requires nests { Nests r-start self.now.depth (S.pre self.now.start) (S.post self.now.start) }
        requires room { HasRoom self.now.depth 24 tokens.old }
        ensures reads { Reads (body r-start) start_view result tokens.old tokens.new }
        ensures less { IfOk result (λ _. weight tokens.new + 21 ≤ weight tokens.old) }
    {
        if tokens.sees(Class::WordInit) {
            tokens.skip(Class::WordInit);
            tokens.expect(Class::SignLeftBracket)?;
            let (first, more) = self.parts(tokens)?;
            return Ok(StartForm::Init(first, more));
        }
        let value = expr(self.alloc, tokens, self.depth)?;
        Ok(StartForm::Value(Boxed::new(self.alloc, value)?))
    }

    // The values of the parts, and the bracket behind them.
    fn parts(&self, tokens: &mut Cursor<'_>) -> Result<(Boxed<Start>, Items<Start>), Stop>
        requires nests { Nests r-start self.now.depth (S.pre self.now.start) (S.post self.now.start) }
        requires room { HasRoom self.now.depth 40 tokens.old }
        ensures reads { Reads (listed r-start ⨟ t SignRightBracket) (λ x. n-sequence (listing r-start x.0 x.1) n-token) result tokens.old tokens.new }
        ensures less { IfOk result (λ _. weight tokens.new ≤ weight tokens.old) }
    {
        let first = self.inner(tokens)?;
        let first = Boxed::new(self.alloc, first)?;
        let mut more = Items::new(self.alloc);
        while tokens.eat(Class::SignComma) {
            let next = self.inner(tokens)?;
            more.push(next)?;
        }
        tokens.expect(Class::SignRightBracket)?;
        Ok((first, more))
    }
}

/// What a variable begins with.
pub fn start(alloc: Global, tokens: &mut Cursor<'_>, depth: u32) -> Result<Start, Stop>
    requires { weight tokens.old + 26 ≤ depth }
    ensures reads { Reads (rule r-start) (λ x. x) result tokens.old tokens.new }
    ensures less { IfOk result (λ _. weight tokens.new + 20 ≤ weight tokens.old) }
{
    StartReader {
        alloc,
        depth: depth - 1,
        start,
    }
    .whole(tokens)
}
