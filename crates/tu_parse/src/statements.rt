ghost use Rattle.std.specs.Prelude.{◌≡◌, ◌+◌, ◌*◌, ◌<◌, ◌≤◌, [], length, true, false, IfOk};
ghost use Rattle.grammar.specs.Description.{rule};
ghost use Rattle.grammar.specs.Tree.{n-sequence, n-token};
ghost use Rattle.tu_token.specs.ClassNumbers.{number, keeps_text};
ghost use Rattle.tu_token.specs.Rules.{◌⨟◌, t, many, maybe, listed, body, r-arm, r-block, r-elsif, r-expr, r-invariant, r-statement};
ghost use Rattle.tu_token.specs.declared.class.Class.TheVariants.{Name, WordBegin, WordCase, WordEnd, WordFor, WordIf, WordLoop};
ghost use Rattle.tu_expr.specs.Parts.{listing, optional};
ghost use Rattle.tu_tree.specs.StatementViews.{arms_view, else_view, elses, elsifs_view, statement_view};
ghost use Rattle.tu_reader.specs.Ahead.{weight, HasRoom};
ghost use Rattle.tu_reader.specs.Nests.{Nests};
ghost use Rattle.tu_reader.specs.Reads.{Reads, Sees};

use crate::blocks::BlockReader;
use crate::simple::simple;
use sqlite_items::{Boxed, Items};
use std::alloc::Global;
use tu_base::Held;
use tu_reader::{Cursor, Stop, expr};
use tu_tree::{Arm, Block, Class, Elsif, Expr, Invariant, Otherwise, Statement, StatementForm};
use tu_types_reader::{optional_invariant, range};

impl<B: Fn(Global, &mut Cursor<'_>, u32) -> Result<Block, Stop>> BlockReader<B> {
    /// A statement.
    pub fn statement(&self, tokens: &mut Cursor<'_>) -> Result<Statement, Stop>
        requires nests { Nests r-block self.now.depth (B.pre self.now.block) (B.post self.now.block) }
        requires room { HasRoom self.now.depth 26 tokens.old }
        ensures reads { Reads (rule r-statement) (λ x. x) result tokens.old tokens.new }
        ensures less { IfOk result (λ _. weight tokens.new + 30 ≤ weight tokens.old) }
    {
        let at = tokens.mark();
        let form = self.statement_form(tokens)?;
        Ok(Statement { at, form })
    }

    fn statement_form(&self, tokens: &mut Cursor<'_>) -> Result<StatementForm, Stop>
        requires nests { Nests r-block self.now.depth (B.pre self.now.block) (B.post self.now.block) }
        requires room { HasRoom self.now.depth 25 tokens.old }
        ensures reads { Reads (body r-statement) statement_view result tokens.old tokens.new }
        ensures less { IfOk result (λ _. weight tokens.new + 31 ≤ weight tokens.old) }
    {
        let Some(class) = tokens.class() else {
            return Err(Stop::Unexpected);
        };
        match class {
            Class::WordIf => self.conditional(tokens),
            Class::WordLoop => self.repetition(tokens),
            Class::WordFor => self.counted(tokens),
            Class::WordCase => self.case_of(tokens),
            Class::WordBegin => self.begin(tokens),
            _ => simple(self.alloc, tokens, self.depth, class),
        }
    }

    fn conditional(&self, tokens: &mut Cursor<'_>) -> Result<StatementForm, Stop>
        requires nests { Nests r-block self.now.depth (B.pre self.now.block) (B.post self.now.block) }
        requires room { HasRoom self.now.depth 25 tokens.old }
        requires seen { Sees WordIf tokens.old true }
        ensures reads { Reads (body r-statement) statement_view result tokens.old tokens.new }
        ensures less { IfOk result (λ _. weight tokens.new + 31 ≤ weight tokens.old) }
    {
        tokens.skip(Class::WordIf);
        let condition = expr(self.alloc, tokens, self.depth)?;
        let condition = Boxed::new(self.alloc, condition)?;
        tokens.expect(Class::WordThen)?;
        let block = self.inner(tokens)?;
        let (elsifs, otherwise) = self.alternatives(tokens)?;
        Ok(StatementForm::If {
            condition,
            block,
            elsifs,
            otherwise,
        })
    }

    // The further conditions of an `if`, the block behind `else`, and the end.
    fn alternatives(&self, tokens: &mut Cursor<'_>) -> Result<(Items<Elsif>, Option<Block>), Stop>
        requires nests { Nests r-block self.now.depth (B.pre self.now.block) (B.post self.now.block) }
        requires room { HasRoom self.now.depth 1 tokens.old }
        ensures reads { Reads (many (rule r-elsif) ⨟ (maybe elses ⨟ (t WordEnd ⨟ t WordIf))) (λ x. n-sequence (elsifs_view x.0) (n-sequence (else_view x.1) (n-sequence n-token n-token))) result tokens.old tokens.new }
        ensures less { IfOk result (λ _. weight tokens.new ≤ weight tokens.old) }
    {
        let elsifs = self.elsifs(tokens)?;
        let otherwise = self.last_alternative(tokens)?;
        Ok((elsifs, otherwise))
    }

    fn last_alternative(&self, tokens: &mut Cursor<'_>) -> Result<Option<Block>, Stop>
        requires nests { Nests r-block self.now.depth (B.pre self.now.block) (B.post self.now.block) }
        requires room { HasRoom self.now.depth 1 tokens.old }
        ensures reads { Reads (maybe elses ⨟ (t WordEnd ⨟ t WordIf)) (λ x. n-sequence (else_view x) (n-sequence n-token n-token)) result tokens.old tokens.new }
        ensures less { IfOk result (λ _. weight tokens.new ≤ weight tokens.old) }
    {
        let otherwise = self.otherwise(tokens)?;
        tokens.end(Class::WordIf)?;
        Ok(otherwise)
    }

    fn elsifs(&self, tokens: &mut Cursor<'_>) -> Result<Items<Elsif>, Stop>
        requires nests { Nests r-block self.now.depth (B.pre self.now.block) (B.post self.now.block) }
        requires room { HasRoom self.now.depth 1 tokens.old }
        ensures reads { Reads (many (rule r-elsif)) elsifs_view result tokens.old tokens.new }
        ensures less { IfOk result (λ _. weight tokens.new ≤ weight tokens.old) }
    {
        let mut elsifs = Items::new(self.alloc);
        while tokens.sees(Class::WordElsif) {
            let next = self.elsif(tokens)?;
            elsifs.push(next)?;
        }
        Ok(elsifs)
    }

    fn elsif(&self, tokens: &mut Cursor<'_>) -> Result<Elsif, Stop>
        requires nests { Nests r-block self.now.depth (B.pre self.now.block) (B.post self.now.block) }
        requires room { HasRoom self.now.depth 1 tokens.old }
        ensures reads { Reads (rule r-elsif) (λ x. x) result tokens.old tokens.new }
        ensures less { IfOk result (λ _. weight tokens.new + 31 ≤ weight tokens.old) }
    {
        let spot = tokens.spot();
        tokens.expect(Class::WordElsif)?;
        let condition = expr(self.alloc, tokens, self.depth)?;
        let condition = Boxed::new(self.alloc, condition)?;
        tokens.expect(Class::WordThen)?;
        let block = self.inner(tokens)?;
        Ok(Elsif {
            spot,
            condition,
            block,
        })
    }

    fn otherwise(&self, tokens: &mut Cursor<'_>) -> Result<Option<Block>, Stop>
        requires nests { Nests r-block self.now.depth (B.pre self.now.block) (B.post self.now.block) }
        requires room { HasRoom self.now.depth 1 tokens.old }
        ensures reads { Reads (maybe elses) else_view result tokens.old tokens.new }
        ensures less { IfOk result (λ _. weight tokens.new ≤ weight tokens.old) }
    {
        if tokens.eat(Class::WordElse) {
            let block = self.inner(tokens)?;
            return Ok(Some(block));
        }
        Ok(None)
    }

    fn repetition(&self, tokens: &mut Cursor<'_>) -> Result<StatementForm, Stop>
        requires nests { Nests r-block self.now.depth (B.pre self.now.block) (B.post self.now.block) }
        requires room { HasRoom self.now.depth 25 tokens.old }
        requires seen { Sees WordLoop tokens.old true }
        ensures reads { Reads (body r-statement) statement_view result tokens.old tokens.new }
        ensures less { IfOk result (λ _. weight tokens.new + 31 ≤ weight tokens.old) }
    {
        tokens.skip(Class::WordLoop);
        let (invariant, block) = self.rounds(tokens, Class::WordLoop)?;
        Ok(StatementForm::Loop(invariant, block))
    }

    // The invariant of a loop, if there is one, its block, and its end with the word of the loop.
    fn rounds(
        &self,
        tokens: &mut Cursor<'_>,
        class: Class,
    ) -> Result<(Option<Invariant>, Block), Stop>
        requires nests { Nests r-block self.now.depth (B.pre self.now.block) (B.post self.now.block) }
        requires room { HasRoom self.now.depth 40 tokens.old }
        requires kind { keeps_text (number class) ≡ false }
        ensures reads { Reads (maybe (rule r-invariant) ⨟ (rule r-block ⨟ (t WordEnd ⨟ t class))) (λ x. n-sequence (optional (rule r-invariant) x.0) (n-sequence x.1 (n-sequence n-token n-token))) result tokens.old tokens.new }
        ensures less { IfOk result (λ _. weight tokens.new ≤ weight tokens.old) }
    {
        let invariant = optional_invariant(self.alloc, tokens, self.depth)?;
        let block = self.ended_block(tokens, class)?;
        Ok((invariant, block))
    }

    // A block, and the end of what it stands in.
    fn ended_block(&self, tokens: &mut Cursor<'_>, class: Class) -> Result<Block, Stop>
        requires nests { Nests r-block self.now.depth (B.pre self.now.block) (B.post self.now.block) }
        requires room { HasRoom self.now.depth 40 tokens.old }
        requires kind { keeps_text (number class) ≡ false }
        ensures reads { Reads (rule r-block ⨟ (t WordEnd ⨟ t class)) (λ x. n-sequence x (n-sequence n-token n-token)) result tokens.old tokens.new }
        ensures less { IfOk result (λ _. weight tokens.new ≤ weight tokens.old) }
    {
        let block = self.inner(tokens)?;
        tokens.end(class)?;
        Ok(block)
    }

    fn counted(&self, tokens: &mut Cursor<'_>) -> Result<StatementForm, Stop>
        requires nests { Nests r-block self.now.depth (B.pre self.now.block) (B.post self.now.block) }
        requires room { HasRoom self.now.depth 25 tokens.old }
        requires seen { Sees WordFor tokens.old true }
        ensures reads { Reads (body r-statement) statement_view result tokens.old tokens.new }
        ensures less { IfOk result (λ _. weight tokens.new + 31 ≤ weight tokens.old) }
    {
        tokens.skip(Class::WordFor);
        let is_decreasing = tokens.eat(Class::WordDecreasing);
        let name = tokens.leaf(self.alloc, Class::Name)?;
        tokens.expect(Class::SignColon)?;
        let range = range(self.alloc, tokens, self.depth)?;
        let range = Held::new(range);
        let (invariant, block) = self.rounds(tokens, Class::WordFor)?;
        let range = range.into_inner();
        Ok(StatementForm::For {
            is_decreasing,
            name,
            range,
            invariant,
            block,
        })
    }

    fn case_of(&self, tokens: &mut Cursor<'_>) -> Result<StatementForm, Stop>
        requires nests { Nests r-block self.now.depth (B.pre self.now.block) (B.post self.now.block) }
        requires room { HasRoom self.now.depth 25 tokens.old }
        requires seen { Sees WordCase tokens.old true }
        ensures reads { Reads (body r-statement) statement_view result tokens.old tokens.new }
        ensures less { IfOk result (λ _. weight tokens.new + 31 ≤ weight tokens.old) }
    {
        tokens.skip(Class::WordCase);
        let subject = expr(self.alloc, tokens, self.depth)?;
        let subject = Boxed::new(self.alloc, subject)?;
        tokens.expect(Class::WordOf)?;
        let (arms, otherwise) = self.ended_arms(tokens)?;
        Ok(StatementForm::Case {
            subject,
            arms,
            otherwise,
        })
    }

    // The arms, the last one without labels, and the end.
    fn ended_arms(&self, tokens: &mut Cursor<'_>) -> Result<(Items<Arm>, Option<Otherwise>), Stop>
        requires nests { Nests r-block self.now.depth (B.pre self.now.block) (B.post self.now.block) }
        requires room { HasRoom self.now.depth 1 tokens.old }
        ensures reads { Reads (maybe (rule r-arm) ⨟ (t WordEnd ⨟ t WordCase)) (λ x. n-sequence (arms_view x.0 x.1) (n-sequence n-token n-token)) result tokens.old tokens.new }
        ensures less { IfOk result (λ _. weight tokens.new ≤ weight tokens.old) }
    {
        let arms = self.arms(tokens)?;
        tokens.end(Class::WordCase)?;
        Ok(arms)
    }

    // The arms, and the last one without labels.
    fn arms(&self, tokens: &mut Cursor<'_>) -> Result<(Items<Arm>, Option<Otherwise>), Stop>
        requires nests { Nests r-block self.now.depth (B.pre self.now.block) (B.post self.now.block) }
        requires room { HasRoom self.now.depth 1 tokens.old }
        ensures reads { Reads (maybe (rule r-arm)) (λ x. arms_view x.0 x.1) result tokens.old tokens.new }
        ensures less { IfOk result (λ _. weight tokens.new ≤ weight tokens.old) }
    {
        let mut arms = Items::new(self.alloc);
        let otherwise = self.add_arms(tokens, &mut arms)?;
        Ok((arms, otherwise))
    }

    // Adds the arms with labels to a list without arms.
    fn add_arms(
        &self,
        tokens: &mut Cursor<'_>,
        arms: &mut Items<Arm>,
    ) -> Result<Option<Otherwise>, Stop>
        requires nests { Nests r-block self.now.depth (B.pre self.now.block) (B.post self.now.block) }
        requires room { HasRoom self.now.depth 1 tokens.old }
        requires none { arms.old ≡ [] }
        ensures reads { Reads (maybe (rule r-arm)) (λ last. arms_view arms.new last) result tokens.old tokens.new }
        ensures less { IfOk result (λ _. weight tokens.new ≤ weight tokens.old) }
    {
        while tokens.sees(Class::WordLabel) {
            let spot = tokens.spot();
            tokens.skip(Class::WordLabel);
            if tokens.sees(Class::SignColon) {
                tokens.skip(Class::SignColon);
                let block = self.inner(tokens)?;
                return Ok(Some(Otherwise { spot, block }));
            }
            let labels = self.labels(tokens)?;
            let labels = Held::new(labels);
            tokens.expect(Class::SignColon)?;
            let block = self.inner(tokens)?;
            let (first, more) = labels.into_inner();
            arms.push(Arm {
                spot,
                first,
                more,
                block,
            })?;
        }
        Ok(None)
    }

    fn labels(&self, tokens: &mut Cursor<'_>) -> Result<(Boxed<Expr>, Items<Expr>), Stop>
        requires nests { Nests r-block self.now.depth (B.pre self.now.block) (B.post self.now.block) }
        requires room { HasRoom self.now.depth 24 tokens.old }
        ensures reads { Reads (listed r-expr) (λ x. listing r-expr x.0 x.1) result tokens.old tokens.new }
        ensures less { IfOk result (λ _. weight tokens.new + 21 ≤ weight tokens.old) }
    {
        let first = expr(self.alloc, tokens, self.depth)?;
        let first = Boxed::new(self.alloc, first)?;
        let mut more = Items::new(self.alloc);
        while tokens.eat(Class::SignComma) {
            let next = expr(self.alloc, tokens, self.depth)?;
            more.push(next)?;
        }
        Ok((first, more))
    }

    fn begin(&self, tokens: &mut Cursor<'_>) -> Result<StatementForm, Stop>
        requires nests { Nests r-block self.now.depth (B.pre self.now.block) (B.post self.now.block) }
        requires room { HasRoom self.now.depth 25 tokens.old }
        requires seen { Sees WordBegin tokens.old true }
        ensures reads { Reads (body r-statement) statement_view result tokens.old tokens.new }
        ensures less { IfOk result (λ _. weight tokens.new + 31 ≤ weight tokens.old) }
    {
        tokens.skip(Class::WordBegin);
        let block = self.inner(tokens)?;
        tokens.expect(Class::WordEnd)?;
        Ok(StatementForm::Begin(block))
    }
}
