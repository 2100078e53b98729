ghost use Rattle.std.specs.Prelude.{◌≡◌, ◌+◌, ◌*◌, ◌<◌, ◌≤◌, length, true, IfOk};
ghost use Rattle.grammar.specs.Description.{rule};
ghost use Rattle.tu_token.specs.Rules.{t, body, r-expr, r-or, r-and, r-not, r-compare, r-sum, r-term, r-prefix, r-power, r-primary, r-path};
ghost use Rattle.tu_token.specs.declared.class.Class.TheVariants.{SignLeftBracket, Text, WordNil};
ghost use Rattle.tu_expr.specs.Views.{primary_view};
ghost use Rattle.tu_reader.specs.Ahead.{weight, HasRoom};
ghost use Rattle.tu_reader.specs.Nests.{Nests};
ghost use Rattle.tu_reader.specs.Reads.{Reads, Sees};

use crate::operator::{begins_relation, multiplication, relation, sign};
use crate::{Cursor, Stop};
use sqlite_items::{Boxed, Items};
use std::alloc::Global;
use tu_base::Held;
use tu_expr::{And, Compare, Expr, Not, Or, Path, Power, Prefix, Primary, PrimaryForm, Sum, Term};
use tu_token::Class;

/// The functions for the parts of an expression. What stands in brackets is read by
/// function values.
#[derive(Clone, Copy)]
pub struct ExprReader<E, T> {
    pub alloc: Global,
    /// Above the weight of what is left inside brackets.
    pub depth: u32,
    pub expr: E,
    pub term: T,
}

impl<
    E: Fn(Global, &mut Cursor<'_>, u32) -> Result<Expr, Stop>,
    T: Fn(Global, &mut Cursor<'_>, u32) -> Result<Term, Stop>,
> ExprReader<E, T> {
    // An expression inside brackets.
    pub fn inner(&self, tokens: &mut Cursor<'_>) -> Result<Expr, Stop>
        requires nests { Nests r-expr self.now.depth (E.pre self.now.expr) (E.post self.now.expr) × Nests r-term self.now.depth (T.pre self.now.term) (T.post self.now.term) }
        requires room { HasRoom self.now.depth 40 tokens.old }
        ensures reads { Reads (rule r-expr) (λ x. x) result tokens.old tokens.new }
        ensures less { IfOk result (λ _. weight tokens.new ≤ weight tokens.old + 1) }
    {
        (self.expr)(self.alloc, tokens, self.depth)
    }

    // A term inside brackets.
    pub fn inner_term(&self, tokens: &mut Cursor<'_>) -> Result<Term, Stop>
        requires nests { Nests r-expr self.now.depth (E.pre self.now.expr) (E.post self.now.expr) × Nests r-term self.now.depth (T.pre self.now.term) (T.post self.now.term) }
        requires room { HasRoom self.now.depth 40 tokens.old }
        ensures reads { Reads (rule r-term) (λ x. x) result tokens.old tokens.new }
        ensures less { IfOk result (λ _. weight tokens.new ≤ weight tokens.old + 1) }
    {
        (self.term)(self.alloc, tokens, self.depth)
    }

    // The sides of `=>`.
    pub fn sides(&self, tokens: &mut Cursor<'_>) -> Result<Expr, Stop>
        requires nests { Nests r-expr self.now.depth (E.pre self.now.expr) (E.post self.now.expr) × Nests r-term self.now.depth (T.pre self.now.term) (T.post self.now.term) }
        requires room { HasRoom self.now.depth 11 tokens.old }
        ensures reads { Reads (rule r-expr) (λ x. x) result tokens.old tokens.new }
        ensures less { IfOk result (λ _. weight tokens.new + 21 ≤ weight tokens.old) }
    {
        let at = tokens.mark();
        let first = self.or(tokens)?;
        let first = Held::new(first);
        let mut more = Items::new(self.alloc);
        while tokens.eat(Class::SignImplies) {
            let next = self.or(tokens)?;
            more.push(next)?;
        }
        let first = first.into_inner();
        Ok(Expr { at, first, more })
    }

    fn or(&self, tokens: &mut Cursor<'_>) -> Result<Or, Stop>
        requires nests { Nests r-expr self.now.depth (E.pre self.now.expr) (E.post self.now.expr) × Nests r-term self.now.depth (T.pre self.now.term) (T.post self.now.term) }
        requires room { HasRoom self.now.depth 10 tokens.old }
        ensures reads { Reads (rule r-or) (λ x. x) result tokens.old tokens.new }
        ensures less { IfOk result (λ _. weight tokens.new + 22 ≤ weight tokens.old) }
    {
        let at = tokens.mark();
        let first = self.and(tokens)?;
        let first = Held::new(first);
        let mut more = Items::new(self.alloc);
        while tokens.eat(Class::WordOr) {
            let next = self.and(tokens)?;
            more.push(next)?;
        }
        let first = first.into_inner();
        Ok(Or { at, first, more })
    }

    fn and(&self, tokens: &mut Cursor<'_>) -> Result<And, Stop>
        requires nests { Nests r-expr self.now.depth (E.pre self.now.expr) (E.post self.now.expr) × Nests r-term self.now.depth (T.pre self.now.term) (T.post self.now.term) }
        requires room { HasRoom self.now.depth 9 tokens.old }
        ensures reads { Reads (rule r-and) (λ x. x) result tokens.old tokens.new }
        ensures less { IfOk result (λ _. weight tokens.new + 23 ≤ weight tokens.old) }
    {
        let at = tokens.mark();
        let first = self.not(tokens)?;
        let first = Held::new(first);
        let mut more = Items::new(self.alloc);
        while tokens.eat(Class::WordAnd) {
            let next = self.not(tokens)?;
            more.push(next)?;
        }
        let first = first.into_inner();
        Ok(And { at, first, more })
    }

    fn not(&self, tokens: &mut Cursor<'_>) -> Result<Not, Stop>
        requires nests { Nests r-expr self.now.depth (E.pre self.now.expr) (E.post self.now.expr) × Nests r-term self.now.depth (T.pre self.now.term) (T.post self.now.term) }
        requires room { HasRoom self.now.depth 8 tokens.old }
        ensures reads { Reads (rule r-not) (λ x. x) result tokens.old tokens.new }
        ensures less { IfOk result (λ _. weight tokens.new + 24 ≤ weight tokens.old) }
    {
        let at = tokens.mark();
        let mut nots = 0;
        while tokens.eat(Class::WordNot) {
            nots += 1;
        }
        let compare = self.compare(tokens)?;
        Ok(Not { at, nots, compare })
    }

    fn compare(&self, tokens: &mut Cursor<'_>) -> Result<Compare, Stop>
        requires nests { Nests r-expr self.now.depth (E.pre self.now.expr) (E.post self.now.expr) × Nests r-term self.now.depth (T.pre self.now.term) (T.post self.now.term) }
        requires room { HasRoom self.now.depth 7 tokens.old }
        ensures reads { Reads (rule r-compare) (λ x. x) result tokens.old tokens.new }
        ensures less { IfOk result (λ _. weight tokens.new + 25 ≤ weight tokens.old) }
    {
        let at = tokens.mark();
        let first = self.sum(tokens)?;
        let first = Held::new(first);
        let mut more = Items::new(self.alloc);
        while begins_relation(tokens) {
            let relation = relation(tokens)?;
            let next = self.sum(tokens)?;
            more.push((relation, next))?;
        }
        let first = first.into_inner();
        Ok(Compare { at, first, more })
    }

    fn sum(&self, tokens: &mut Cursor<'_>) -> Result<Sum, Stop>
        requires nests { Nests r-expr self.now.depth (E.pre self.now.expr) (E.post self.now.expr) × Nests r-term self.now.depth (T.pre self.now.term) (T.post self.now.term) }
        requires room { HasRoom self.now.depth 6 tokens.old }
        ensures reads { Reads (rule r-sum) (λ x. x) result tokens.old tokens.new }
        ensures less { IfOk result (λ _. weight tokens.new + 26 ≤ weight tokens.old) }
    {
        let at = tokens.mark();
        let first = self.term(tokens)?;
        let first = Held::new(first);
        let mut more = Items::new(self.alloc);
        while let Some(sign) = sign(tokens) {
            let next = self.term(tokens)?;
            more.push((sign, next))?;
        }
        let first = first.into_inner();
        Ok(Sum { at, first, more })
    }

    pub fn term(&self, tokens: &mut Cursor<'_>) -> Result<Term, Stop>
        requires nests { Nests r-expr self.now.depth (E.pre self.now.expr) (E.post self.now.expr) × Nests r-term self.now.depth (T.pre self.now.term) (T.post self.now.term) }
        requires room { HasRoom self.now.depth 5 tokens.old }
        ensures reads { Reads (rule r-term) (λ x. x) result tokens.old tokens.new }
        ensures less { IfOk result (λ _. weight tokens.new + 27 ≤ weight tokens.old) }
    {
        let at = tokens.mark();
        let first = self.prefix(tokens)?;
        let first = Held::new(first);
        let mut more = Items::new(self.alloc);
        while let Some(multiplication) = multiplication(tokens) {
            let next = self.prefix(tokens)?;
            more.push((multiplication, next))?;
        }
        let first = first.into_inner();
        Ok(Term { at, first, more })
    }

    fn prefix(&self, tokens: &mut Cursor<'_>) -> Result<Prefix, Stop>
        requires nests { Nests r-expr self.now.depth (E.pre self.now.expr) (E.post self.now.expr) × Nests r-term self.now.depth (T.pre self.now.term) (T.post self.now.term) }
        requires room { HasRoom self.now.depth 4 tokens.old }
        ensures reads { Reads (rule r-prefix) (λ x. x) result tokens.old tokens.new }
        ensures less { IfOk result (λ _. weight tokens.new + 28 ≤ weight tokens.old) }
    {
        let at = tokens.mark();
        let mut signs = Items::new(self.alloc);
        while let Some(sign) = sign(tokens) {
            signs.push(sign)?;
        }
        let power = self.power(tokens)?;
        Ok(Prefix { at, signs, power })
    }

    fn power(&self, tokens: &mut Cursor<'_>) -> Result<Power, Stop>
        requires nests { Nests r-expr self.now.depth (E.pre self.now.expr) (E.post self.now.expr) × Nests r-term self.now.depth (T.pre self.now.term) (T.post self.now.term) }
        requires room { HasRoom self.now.depth 3 tokens.old }
        ensures reads { Reads (rule r-power) (λ x. x) result tokens.old tokens.new }
        ensures less { IfOk result (λ _. weight tokens.new + 29 ≤ weight tokens.old) }
    {
        let at = tokens.mark();
        let first = self.primary(tokens)?;
        let first = Held::new(first);
        let mut more = Items::new(self.alloc);
        while tokens.eat(Class::SignPower) {
            let next = self.primary(tokens)?;
            more.push(next)?;
        }
        let first = first.into_inner();
        Ok(Power { at, first, more })
    }

    fn primary(&self, tokens: &mut Cursor<'_>) -> Result<Primary, Stop>
        requires nests { Nests r-expr self.now.depth (E.pre self.now.expr) (E.post self.now.expr) × Nests r-term self.now.depth (T.pre self.now.term) (T.post self.now.term) }
        requires room { HasRoom self.now.depth 2 tokens.old }
        ensures reads { Reads (rule r-primary) (λ x. x) result tokens.old tokens.new }
        ensures less { IfOk result (λ _. weight tokens.new + 30 ≤ weight tokens.old) }
    {
        let at = tokens.mark();
        let form = self.primary_form(tokens)?;
        Ok(Primary { at, form })
    }

    fn primary_form(&self, tokens: &mut Cursor<'_>) -> Result<PrimaryForm, Stop>
        requires nests { Nests r-expr self.now.depth (E.pre self.now.expr) (E.post self.now.expr) × Nests r-term self.now.depth (T.pre self.now.term) (T.post self.now.term) }
        requires room { HasRoom self.now.depth 1 tokens.old }
        ensures reads { Reads (body r-primary) primary_view result tokens.old tokens.new }
        ensures less { IfOk result (λ _. weight tokens.new + 31 ≤ weight tokens.old) }
    {
        let Some(class) = tokens.class() else {
            return Err(Stop::Unexpected);
        };
        match class {
            Class::Number => {
                let number = tokens.leaf(self.alloc, Class::Number)?;
                Ok(PrimaryForm::Number(number))
            }
            Class::WordTrue => {
                tokens.skip(Class::WordTrue);
                Ok(PrimaryForm::True)
            }
            Class::WordFalse => {
                tokens.skip(Class::WordFalse);
                Ok(PrimaryForm::False)
            }
            Class::Name => {
                let path = self.path(tokens)?;
                Ok(PrimaryForm::Path(path))
            }
            Class::SignLeftBracket => self.brackets(tokens),
            Class::Text => self.text(tokens),
            Class::WordNil => self.nil(tokens),
            _ => Err(Stop::Unexpected),
        }
    }

    fn brackets(&self, tokens: &mut Cursor<'_>) -> Result<PrimaryForm, Stop>
        requires nests { Nests r-expr self.now.depth (E.pre self.now.expr) (E.post self.now.expr) × Nests r-term self.now.depth (T.pre self.now.term) (T.post self.now.term) }
        requires room { HasRoom self.now.depth 1 tokens.old }
        requires seen { Sees SignLeftBracket tokens.old true }
        ensures reads { Reads (body r-primary) primary_view result tokens.old tokens.new }
        ensures less { IfOk result (λ _. weight tokens.new + 31 ≤ weight tokens.old) }
    {
        tokens.skip(Class::SignLeftBracket);
        let inner = self.inner(tokens)?;
        let inner = Boxed::new(self.alloc, inner)?;
        tokens.expect(Class::SignRightBracket)?;
        Ok(PrimaryForm::Brackets(inner))
    }

    // A text, and the brackets behind it.
    fn text(&self, tokens: &mut Cursor<'_>) -> Result<PrimaryForm, Stop>
        requires nests { Nests r-expr self.now.depth (E.pre self.now.expr) (E.post self.now.expr) × Nests r-term self.now.depth (T.pre self.now.term) (T.post self.now.term) }
        requires room { HasRoom self.now.depth 1 tokens.old }
        requires seen { Sees Text tokens.old true }
        ensures reads { Reads (body r-primary) primary_view result tokens.old tokens.new }
        ensures less { IfOk result (λ _. weight tokens.new + 31 ≤ weight tokens.old) }
    {
        let text = tokens.leaf(self.alloc, Class::Text)?;
        let mut parts = Items::new(self.alloc);
        while tokens.eat(Class::SignLeftBracket) {
            let part = self.arg(tokens)?;
            parts.push(part)?;
            tokens.expect(Class::SignRightBracket)?;
        }
        Ok(PrimaryForm::Text(text, parts))
    }

    fn nil(&self, tokens: &mut Cursor<'_>) -> Result<PrimaryForm, Stop>
        requires nests { Nests r-expr self.now.depth (E.pre self.now.expr) (E.post self.now.expr) × Nests r-term self.now.depth (T.pre self.now.term) (T.post self.now.term) }
        requires room { HasRoom self.now.depth 1 tokens.old }
        requires seen { Sees WordNil tokens.old true }
        ensures reads { Reads (body r-primary) primary_view result tokens.old tokens.new }
        ensures less { IfOk result (λ _. weight tokens.new + 31 ≤ weight tokens.old) }
    {
        tokens.skip(Class::WordNil);
        tokens.expect(Class::SignLeftBracket)?;
        let path = self.path(tokens)?;
        tokens.expect(Class::SignRightBracket)?;
        Ok(PrimaryForm::Nil(path))
    }
}

/// An expression.
#[cycle(expr)]
pub fn expr(alloc: Global, tokens: &mut Cursor<'_>, depth: u32) -> Result<Expr, Stop>
    requires { weight tokens.old + 24 ≤ depth }
    ensures reads { Reads (rule r-expr) (λ x. x) result tokens.old tokens.new }
    ensures less { IfOk result (λ _. weight tokens.new + 21 ≤ weight tokens.old) }
{
    ExprReader {
        alloc,
        depth: depth - 1,
        expr,
        term,
    }
    .sides(tokens)
}

/// A term.
#[cycle(expr)]
fn term(alloc: Global, tokens: &mut Cursor<'_>, depth: u32) -> Result<Term, Stop>
    requires { weight tokens.old + 24 ≤ depth }
    ensures reads { Reads (rule r-term) (λ x. x) result tokens.old tokens.new }
    ensures less { IfOk result (λ _. weight tokens.new + 27 ≤ weight tokens.old) }
{
    ExprReader {
        alloc,
        depth: depth - 1,
        expr,
        term,
    }
    .term(tokens)
}

/// A path.
pub fn path(alloc: Global, tokens: &mut Cursor<'_>, depth: u32) -> Result<Path, Stop>
    requires { weight tokens.old + 24 ≤ depth }
    ensures reads { Reads (rule r-path) (λ x. x) result tokens.old tokens.new }
    ensures less { IfOk result (λ _. weight tokens.new + 31 ≤ weight tokens.old) }
{
    ExprReader {
        alloc,
        depth,
        expr,
        term,
    }
    .path(tokens)
}
