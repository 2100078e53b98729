ghost use Rattle.std.specs.Prelude.{◌≡◌, ◌+◌, ◌*◌, ◌<◌, ◌≤◌, length, IfOk, MatchOption};
ghost use Rattle.grammar.specs.Description.{rule};
ghost use Rattle.grammar.specs.Tree.{n-sequence, n-token};
ghost use Rattle.tu_token.specs.Rules.{◌⨟◌, t, maybe, listed, body, r-expr, r-term, r-path, r-arg, r-place};
ghost use Rattle.tu_token.specs.declared.class.Class.TheVariants.{SignRightBracket};
ghost use Rattle.tu_expr.specs.Parts.{any_listing};
ghost use Rattle.tu_expr.specs.Views.{steps, step_view, arg_view, place_view};
ghost use Rattle.tu_reader.specs.Ahead.{weight, HasRoom};
ghost use Rattle.tu_reader.specs.Nests.{Nests};
ghost use Rattle.tu_reader.specs.Reads.{Adds, Reads, Tries};

use crate::{Cursor, ExprReader, Stop};
use sqlite_items::Items;
use std::alloc::Global;
use tu_base::Held;
use tu_expr::{Arg, ArgForm, Expr, Path, Place, PlaceForm, Step, Term};
use tu_token::Class;

impl<
    E: Fn(Global, &mut Cursor<'_>, u32) -> Result<Expr, Stop>,
    T: Fn(Global, &mut Cursor<'_>, u32) -> Result<Term, Stop>,
> ExprReader<E, T> {
    /// A path.
    pub fn path(&self, tokens: &mut Cursor<'_>) -> Result<Path, Stop>
        requires nests { Nests r-expr self.now.depth (E.pre self.now.expr) (E.post self.now.expr) × Nests r-term self.now.depth (T.pre self.now.term) (T.post self.now.term) }
        requires room { HasRoom self.now.depth 1 tokens.old }
        ensures reads { Reads (rule r-path) (λ x. x) result tokens.old tokens.new }
        ensures less { IfOk result (λ _. weight tokens.new + 31 ≤ weight tokens.old) }
    {
        let at = tokens.mark();
        let root = tokens.leaf(self.alloc, Class::Name)?;
        let mut steps = Items::new(self.alloc);
        while let Some(step) = self.step(tokens)? {
            steps.push(step)?;
        }
        Ok(Path { at, root, steps })
    }

    fn step(&self, tokens: &mut Cursor<'_>) -> Result<Option<Step>, Stop>
        requires nests { Nests r-expr self.now.depth (E.pre self.now.expr) (E.post self.now.expr) × Nests r-term self.now.depth (T.pre self.now.term) (T.post self.now.term) }
        requires room { HasRoom self.now.depth 1 tokens.old }
        ensures tries { Tries steps step_view result tokens.old tokens.new }
        ensures less { IfOk result (λ o. MatchOption o (weight tokens.new ≤ weight tokens.old) (λ _. weight tokens.new + 32 ≤ weight tokens.old)) }
    {
        if tokens.sees(Class::SignDot) {
            tokens.skip(Class::SignDot);
            let name = tokens.leaf(self.alloc, Class::Name)?;
            return Ok(Some(Step::Field(name)));
        }
        if tokens.sees(Class::SignLeftBracket) {
            tokens.skip(Class::SignLeftBracket);
            let args = self.args(tokens)?;
            return Ok(Some(Step::Arguments(args)));
        }
        Ok(None)
    }

    // Any number of arguments, and the bracket behind them.
    fn args(&self, tokens: &mut Cursor<'_>) -> Result<Items<Arg>, Stop>
        requires nests { Nests r-expr self.now.depth (E.pre self.now.expr) (E.post self.now.expr) × Nests r-term self.now.depth (T.pre self.now.term) (T.post self.now.term) }
        requires room { HasRoom self.now.depth 42 tokens.old }
        ensures reads { Reads (maybe (listed r-arg) ⨟ t SignRightBracket) (λ args. n-sequence (any_listing r-arg args) n-token) result tokens.old tokens.new }
        ensures less { IfOk result (λ _. weight tokens.new ≤ weight tokens.old) }
    {
        let mut args = Items::new(self.alloc);
        if tokens.sees(Class::SignRightBracket) {
            tokens.skip(Class::SignRightBracket);
            return Ok(args);
        }
        self.add_arg(tokens, &mut args)?;
        while tokens.eat(Class::SignComma) {
            self.add_arg(tokens, &mut args)?;
        }
        tokens.expect(Class::SignRightBracket)?;
        Ok(args)
    }

    // An argument, behind others.
    fn add_arg(&self, tokens: &mut Cursor<'_>, args: &mut Items<Arg>) -> Result<(), Stop>
        requires nests { Nests r-expr self.now.depth (E.pre self.now.expr) (E.post self.now.expr) × Nests r-term self.now.depth (T.pre self.now.term) (T.post self.now.term) }
        requires room { HasRoom self.now.depth 42 tokens.old }
        ensures adds { Adds r-arg result args.old args.new tokens.old tokens.new }
        ensures less { IfOk result (λ _. weight tokens.new ≤ weight tokens.old + 3) }
    {
        let arg = self.arg(tokens)?;
        args.push(arg)?;
        Ok(())
    }

    /// An argument.
    pub fn arg(&self, tokens: &mut Cursor<'_>) -> Result<Arg, Stop>
        requires nests { Nests r-expr self.now.depth (E.pre self.now.expr) (E.post self.now.expr) × Nests r-term self.now.depth (T.pre self.now.term) (T.post self.now.term) }
        requires room { HasRoom self.now.depth 42 tokens.old }
        ensures reads { Reads (rule r-arg) (λ x. x) result tokens.old tokens.new }
        ensures less { IfOk result (λ _. weight tokens.new ≤ weight tokens.old + 3) }
    {
        let at = tokens.mark();
        let form = self.arg_form(tokens)?;
        Ok(Arg { at, form })
    }

    fn arg_form(&self, tokens: &mut Cursor<'_>) -> Result<ArgForm, Stop>
        requires nests { Nests r-expr self.now.depth (E.pre self.now.expr) (E.post self.now.expr) × Nests r-term self.now.depth (T.pre self.now.term) (T.post self.now.term) }
        requires room { HasRoom self.now.depth 41 tokens.old }
        ensures reads { Reads (body r-arg) arg_view result tokens.old tokens.new }
        ensures less { IfOk result (λ _. weight tokens.new ≤ weight tokens.old + 2) }
    {
        if tokens.sees(Class::WordAll) {
            tokens.skip(Class::WordAll);
            return Ok(ArgForm::All);
        }
        let from = self.place(tokens)?;
        let from = Held::new(from);
        if tokens.eat(Class::SignRange) {
            let to = self.place(tokens)?;
            return Ok(ArgForm::Part(from.into_inner(), to));
        }
        Ok(ArgForm::One(from.into_inner()))
    }

    fn place(&self, tokens: &mut Cursor<'_>) -> Result<Place, Stop>
        requires nests { Nests r-expr self.now.depth (E.pre self.now.expr) (E.post self.now.expr) × Nests r-term self.now.depth (T.pre self.now.term) (T.post self.now.term) }
        requires room { HasRoom self.now.depth 41 tokens.old }
        ensures reads { Reads (rule r-place) (λ x. x) result tokens.old tokens.new }
        ensures less { IfOk result (λ _. weight tokens.new ≤ weight tokens.old + 2) }
    {
        let at = tokens.mark();
        let form = self.place_form(tokens)?;
        Ok(Place { at, form })
    }

    fn place_form(&self, tokens: &mut Cursor<'_>) -> Result<PlaceForm, Stop>
        requires nests { Nests r-expr self.now.depth (E.pre self.now.expr) (E.post self.now.expr) × Nests r-term self.now.depth (T.pre self.now.term) (T.post self.now.term) }
        requires room { HasRoom self.now.depth 40 tokens.old }
        ensures reads { Reads (body r-place) place_view result tokens.old tokens.new }
        ensures less { IfOk result (λ _. weight tokens.new ≤ weight tokens.old + 1) }
    {
        if tokens.sees(Class::SignStar) {
            tokens.skip(Class::SignStar);
            if tokens.eat(Class::SignMinus) {
                let term = self.inner_term(tokens)?;
                return Ok(PlaceForm::LengthLess(term));
            }
            return Ok(PlaceForm::Length);
        }
        let value = self.inner(tokens)?;
        Ok(PlaceForm::Value(value))
    }
}
