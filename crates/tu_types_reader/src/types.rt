ghost use Rattle.std.specs.Prelude.{◌≡◌, ◌+◌, ◌*◌, ◌<◌, ◌≤◌, length, true, IfOk};
ghost use Rattle.grammar.specs.Description.{rule};
ghost use Rattle.grammar.specs.Tree.{n-sequence, n-token};
ghost use Rattle.tu_token.specs.Rules.{◌⨟◌, t, many, maybe, listed, body, r-base, r-expr, r-field, r-index, r-spec, r-variant};
ghost use Rattle.tu_token.specs.declared.class.Class.TheVariants.{SignColon, WordEnd, WordEnum, WordOf, WordPointer, WordRecord, WordSet, WordString, WordUnion};
ghost use Rattle.tu_expr.specs.Parts.{any_listing, listing};
ghost use Rattle.tu_tree.specs.TypeViews.{base_view, fields_view, size_view, sizes, variants_view};
ghost use Rattle.tu_reader.specs.Ahead.{weight, HasRoom};
ghost use Rattle.tu_reader.specs.Nests.{Nests};
ghost use Rattle.tu_reader.specs.Reads.{Adds, Reads, Sees};

use crate::bounds::{index, range};
use crate::naming::{name, names, optional_name};
use sqlite_items::{Boxed, Items};
use std::alloc::Global;
use tu_base::Held;
use tu_reader::{Cursor, Stop, expr};
use tu_tree::{Array, Base, BaseForm, Class, Expr, Field, Spec, StringSize, Variant};

/// The functions for the parts of a type. The types of fields are read by a function value.
#[derive(Clone, Copy)]
pub struct TypeReader<S> {
    pub alloc: Global,
    /// Above the weight of what is left.
    pub depth: u32,
    pub spec: S,
}

impl<S: Fn(Global, &mut Cursor<'_>, u32) -> Result<Spec, Stop>> TypeReader<S> {
    // The type of a field.
    fn inner(&self, tokens: &mut Cursor<'_>) -> Result<Spec, Stop>
        requires nests { Nests r-spec self.now.depth (S.pre self.now.spec) (S.post self.now.spec) }
        requires room { HasRoom self.now.depth 40 tokens.old }
        ensures reads { Reads (rule r-spec) (λ x. x) result tokens.old tokens.new }
        ensures less { IfOk result (λ _. weight tokens.new ≤ weight tokens.old + 1) }
    {
        (self.spec)(self.alloc, tokens, self.depth)
    }

    /// A whole type.
    pub fn whole(&self, tokens: &mut Cursor<'_>) -> Result<Spec, Stop>
        requires nests { Nests r-spec self.now.depth (S.pre self.now.spec) (S.post self.now.spec) }
        requires room { HasRoom self.now.depth 27 tokens.old }
        ensures reads { Reads (rule r-spec) (λ x. x) result tokens.old tokens.new }
        ensures less { IfOk result (λ _. weight tokens.new + 18 ≤ weight tokens.old) }
    {
        let at = tokens.mark();
        let mut arrays = Items::new(self.alloc);
        while tokens.eat(Class::WordArray) {
            let array = self.array(tokens)?;
            arrays.push(array)?;
        }
        let base = self.base(tokens)?;
        Ok(Spec { at, arrays, base })
    }

    // The dimensions behind `array`, and `of`.
    fn array(&self, tokens: &mut Cursor<'_>) -> Result<Array, Stop>
        requires nests { Nests r-spec self.now.depth (S.pre self.now.spec) (S.post self.now.spec) }
        requires room { HasRoom self.now.depth 25 tokens.old }
        ensures reads { Reads (listed r-index ⨟ t WordOf) (λ a. n-sequence (listing r-index a.first a.more) n-token) result tokens.old tokens.new }
        ensures less { IfOk result (λ _. weight tokens.new ≤ weight tokens.old) }
    {
        let first = index(self.alloc, tokens, self.depth)?;
        let first = Held::new(first);
        let mut more = Items::new(self.alloc);
        while tokens.eat(Class::SignComma) {
            let next = index(self.alloc, tokens, self.depth)?;
            more.push(next)?;
        }
        tokens.expect(Class::WordOf)?;
        let first = first.into_inner();
        Ok(Array { first, more })
    }

    fn base(&self, tokens: &mut Cursor<'_>) -> Result<Base, Stop>
        requires nests { Nests r-spec self.now.depth (S.pre self.now.spec) (S.post self.now.spec) }
        requires room { HasRoom self.now.depth 26 tokens.old }
        ensures reads { Reads (rule r-base) (λ x. x) result tokens.old tokens.new }
        ensures less { IfOk result (λ _. weight tokens.new + 19 ≤ weight tokens.old) }
    {
        let at = tokens.mark();
        let form = self.base_form(tokens)?;
        Ok(Base { at, form })
    }

    fn base_form(&self, tokens: &mut Cursor<'_>) -> Result<BaseForm, Stop>
        requires nests { Nests r-spec self.now.depth (S.pre self.now.spec) (S.post self.now.spec) }
        requires room { HasRoom self.now.depth 25 tokens.old }
        ensures reads { Reads (body r-base) base_view result tokens.old tokens.new }
        ensures less { IfOk result (λ _. weight tokens.new + 20 ≤ weight tokens.old) }
    {
        let Some(class) = tokens.class() else {
            return Err(Stop::Unexpected);
        };
        match class {
            Class::WordInt => {
                tokens.skip(Class::WordInt);
                Ok(BaseForm::Int)
            }
            Class::WordBoolean => {
                tokens.skip(Class::WordBoolean);
                Ok(BaseForm::Boolean)
            }
            Class::WordString => self.string(tokens),
            Class::WordEnum => self.enumeration(tokens),
            Class::WordSet => self.set(tokens),
            Class::WordPointer => self.pointer(tokens),
            Class::WordRecord => self.fields(tokens),
            Class::WordUnion => self.union(tokens),
            _ => {
                let range = range(self.alloc, tokens, self.depth)?;
                Ok(BaseForm::Range(range))
            }
        }
    }

    fn string(&self, tokens: &mut Cursor<'_>) -> Result<BaseForm, Stop>
        requires nests { Nests r-spec self.now.depth (S.pre self.now.spec) (S.post self.now.spec) }
        requires room { HasRoom self.now.depth 25 tokens.old }
        requires seen { Sees WordString tokens.old true }
        ensures reads { Reads (body r-base) base_view result tokens.old tokens.new }
        ensures less { IfOk result (λ _. weight tokens.new + 20 ≤ weight tokens.old) }
    {
        tokens.skip(Class::WordString);
        let size = self.size(tokens)?;
        Ok(BaseForm::String(size))
    }

    fn size(&self, tokens: &mut Cursor<'_>) -> Result<StringSize, Stop>
        requires nests { Nests r-spec self.now.depth (S.pre self.now.spec) (S.post self.now.spec) }
        requires room { HasRoom self.now.depth 1 tokens.old }
        ensures reads { Reads (maybe sizes) size_view result tokens.old tokens.new }
        ensures less { IfOk result (λ _. weight tokens.new ≤ weight tokens.old) }
    {
        if tokens.eat(Class::SignLeftBracket) {
            if tokens.sees(Class::SignStar) {
                let star = tokens.spot();
                tokens.skip(Class::SignStar);
                tokens.expect(Class::SignRightBracket)?;
                return Ok(StringSize::Open(star));
            }
            let most = expr(self.alloc, tokens, self.depth)?;
            let most = Boxed::new(self.alloc, most)?;
            tokens.expect(Class::SignRightBracket)?;
            return Ok(StringSize::Most(most));
        }
        Ok(StringSize::Whole)
    }

    fn enumeration(&self, tokens: &mut Cursor<'_>) -> Result<BaseForm, Stop>
        requires nests { Nests r-spec self.now.depth (S.pre self.now.spec) (S.post self.now.spec) }
        requires room { HasRoom self.now.depth 25 tokens.old }
        requires seen { Sees WordEnum tokens.old true }
        ensures reads { Reads (body r-base) base_view result tokens.old tokens.new }
        ensures less { IfOk result (λ _. weight tokens.new + 20 ≤ weight tokens.old) }
    {
        tokens.skip(Class::WordEnum);
        tokens.expect(Class::SignLeftBracket)?;
        let names = names(self.alloc, tokens)?;
        tokens.expect(Class::SignRightBracket)?;
        Ok(BaseForm::Enum(names))
    }

    fn set(&self, tokens: &mut Cursor<'_>) -> Result<BaseForm, Stop>
        requires nests { Nests r-spec self.now.depth (S.pre self.now.spec) (S.post self.now.spec) }
        requires room { HasRoom self.now.depth 25 tokens.old }
        requires seen { Sees WordSet tokens.old true }
        ensures reads { Reads (body r-base) base_view result tokens.old tokens.new }
        ensures less { IfOk result (λ _. weight tokens.new + 20 ≤ weight tokens.old) }
    {
        tokens.skip(Class::WordSet);
        tokens.expect(Class::WordOf)?;
        let range = range(self.alloc, tokens, self.depth)?;
        Ok(BaseForm::Set(range))
    }

    fn pointer(&self, tokens: &mut Cursor<'_>) -> Result<BaseForm, Stop>
        requires nests { Nests r-spec self.now.depth (S.pre self.now.spec) (S.post self.now.spec) }
        requires room { HasRoom self.now.depth 25 tokens.old }
        requires seen { Sees WordPointer tokens.old true }
        ensures reads { Reads (body r-base) base_view result tokens.old tokens.new }
        ensures less { IfOk result (λ _. weight tokens.new + 20 ≤ weight tokens.old) }
    {
        tokens.skip(Class::WordPointer);
        tokens.expect(Class::WordTo)?;
        let name = name(self.alloc, tokens)?;
        Ok(BaseForm::Pointer(name))
    }

    fn fields(&self, tokens: &mut Cursor<'_>) -> Result<BaseForm, Stop>
        requires nests { Nests r-spec self.now.depth (S.pre self.now.spec) (S.post self.now.spec) }
        requires room { HasRoom self.now.depth 25 tokens.old }
        requires seen { Sees WordRecord tokens.old true }
        ensures reads { Reads (body r-base) base_view result tokens.old tokens.new }
        ensures less { IfOk result (λ _. weight tokens.new + 20 ≤ weight tokens.old) }
    {
        tokens.skip(Class::WordRecord);
        let first = self.field(tokens)?;
        let first = Boxed::new(self.alloc, first)?;
        let more = self.more_fields(tokens)?;
        tokens.end(Class::WordRecord)?;
        Ok(BaseForm::Record(first, more))
    }

    fn more_fields(&self, tokens: &mut Cursor<'_>) -> Result<Items<Field>, Stop>
        requires nests { Nests r-spec self.now.depth (S.pre self.now.spec) (S.post self.now.spec) }
        requires room { HasRoom self.now.depth 2 tokens.old }
        ensures reads { Reads (many (rule r-field)) fields_view result tokens.old tokens.new }
        ensures less { IfOk result (λ _. weight tokens.new ≤ weight tokens.old) }
    {
        let mut more = Items::new(self.alloc);
        while tokens.sees(Class::Name) {
            let next = self.field(tokens)?;
            more.push(next)?;
        }
        Ok(more)
    }

    fn field(&self, tokens: &mut Cursor<'_>) -> Result<Field, Stop>
        requires nests { Nests r-spec self.now.depth (S.pre self.now.spec) (S.post self.now.spec) }
        requires room { HasRoom self.now.depth 2 tokens.old }
        ensures reads { Reads (rule r-field) (λ x. x) result tokens.old tokens.new }
        ensures less { IfOk result (λ _. weight tokens.new + 16 ≤ weight tokens.old) }
    {
        let at = tokens.mark();
        let names = names(self.alloc, tokens)?;
        tokens.expect(Class::SignColon)?;
        let spec = self.inner(tokens)?;
        let semicolon = tokens.eat(Class::SignSemicolon);
        Ok(Field {
            at,
            names,
            spec,
            semicolon,
        })
    }

    fn union(&self, tokens: &mut Cursor<'_>) -> Result<BaseForm, Stop>
        requires nests { Nests r-spec self.now.depth (S.pre self.now.spec) (S.post self.now.spec) }
        requires room { HasRoom self.now.depth 25 tokens.old }
        requires seen { Sees WordUnion tokens.old true }
        ensures reads { Reads (body r-base) base_view result tokens.old tokens.new }
        ensures less { IfOk result (λ _. weight tokens.new + 20 ≤ weight tokens.old) }
    {
        tokens.skip(Class::WordUnion);
        let tag = optional_name(self.alloc, tokens)?;
        tokens.expect(Class::SignColon)?;
        let range = range(self.alloc, tokens, self.depth)?;
        let range = Held::new(range);
        let variants = self.ended_variants(tokens)?;
        let range = range.into_inner();
        Ok(BaseForm::Union {
            tag,
            range,
            variants,
        })
    }

    // `of`, the variants, and the end of their union.
    fn ended_variants(&self, tokens: &mut Cursor<'_>) -> Result<Items<Variant>, Stop>
        requires nests { Nests r-spec self.now.depth (S.pre self.now.spec) (S.post self.now.spec) }
        requires room { HasRoom self.now.depth 1 tokens.old }
        ensures reads { Reads (t WordOf ⨟ (many (rule r-variant) ⨟ (t WordEnd ⨟ t WordUnion))) (λ variants. n-sequence n-token (n-sequence (variants_view variants) (n-sequence n-token n-token))) result tokens.old tokens.new }
        ensures less { IfOk result (λ _. weight tokens.new ≤ weight tokens.old) }
    {
        tokens.expect(Class::WordOf)?;
        let variants = self.variants(tokens)?;
        tokens.end(Class::WordUnion)?;
        Ok(variants)
    }

    fn variants(&self, tokens: &mut Cursor<'_>) -> Result<Items<Variant>, Stop>
        requires nests { Nests r-spec self.now.depth (S.pre self.now.spec) (S.post self.now.spec) }
        requires room { HasRoom self.now.depth 1 tokens.old }
        ensures reads { Reads (many (rule r-variant)) variants_view result tokens.old tokens.new }
        ensures less { IfOk result (λ _. weight tokens.new ≤ weight tokens.old) }
    {
        let mut variants = Items::new(self.alloc);
        while tokens.sees(Class::WordLabel) {
            let next = self.variant(tokens)?;
            variants.push(next)?;
        }
        Ok(variants)
    }

    fn variant(&self, tokens: &mut Cursor<'_>) -> Result<Variant, Stop>
        requires nests { Nests r-spec self.now.depth (S.pre self.now.spec) (S.post self.now.spec) }
        requires room { HasRoom self.now.depth 1 tokens.old }
        ensures reads { Reads (rule r-variant) (λ x. x) result tokens.old tokens.new }
        ensures less { IfOk result (λ _. weight tokens.new + 31 ≤ weight tokens.old) }
    {
        let at = tokens.mark();
        tokens.expect(Class::WordLabel)?;
        let labels = self.labels(tokens)?;
        let fields = self.more_fields(tokens)?;
        Ok(Variant { at, labels, fields })
    }

    // Any number of labels, and the colon behind them.
    fn labels(&self, tokens: &mut Cursor<'_>) -> Result<Items<Expr>, Stop>
        requires nests { Nests r-spec self.now.depth (S.pre self.now.spec) (S.post self.now.spec) }
        requires room { HasRoom self.now.depth 24 tokens.old }
        ensures reads { Reads (maybe (listed r-expr) ⨟ t SignColon) (λ labels. n-sequence (any_listing r-expr labels) n-token) result tokens.old tokens.new }
        ensures less { IfOk result (λ _. weight tokens.new ≤ weight tokens.old) }
    {
        let mut labels = Items::new(self.alloc);
        if tokens.sees(Class::SignColon) {
            tokens.skip(Class::SignColon);
            return Ok(labels);
        }
        self.add_label(tokens, &mut labels)?;
        while tokens.eat(Class::SignComma) {
            self.add_label(tokens, &mut labels)?;
        }
        tokens.expect(Class::SignColon)?;
        Ok(labels)
    }

    // A label, behind others.
    fn add_label(&self, tokens: &mut Cursor<'_>, labels: &mut Items<Expr>) -> Result<(), Stop>
        requires nests { Nests r-spec self.now.depth (S.pre self.now.spec) (S.post self.now.spec) }
        requires room { HasRoom self.now.depth 24 tokens.old }
        ensures adds { Adds r-expr result labels.old labels.new tokens.old tokens.new }
        ensures less { IfOk result (λ _. weight tokens.new ≤ weight tokens.old) }
    {
        let label = expr(self.alloc, tokens, self.depth)?;
        labels.push(label)?;
        Ok(())
    }
}

/// A type.
pub fn spec(alloc: Global, tokens: &mut Cursor<'_>, depth: u32) -> Result<Spec, Stop>
    requires { weight tokens.old + 28 ≤ depth }
    ensures reads { Reads (rule r-spec) (λ x. x) result tokens.old tokens.new }
    ensures less { IfOk result (λ _. weight tokens.new + 18 ≤ weight tokens.old) }
{
    TypeReader {
        alloc,
        depth: depth - 1,
        spec,
    }
    .whole(tokens)
}
