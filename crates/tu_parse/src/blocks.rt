ghost use Rattle.std.specs.Prelude.{◌≡◌, ◌+◌, ◌*◌, ◌<◌, ◌≤◌, length, IfOk};
ghost use Rattle.grammar.specs.Classes.{is_among};
ghost use Rattle.grammar.specs.Description.{rule};
ghost use Rattle.grammar.specs.Grammar.{first};
ghost use Rattle.tu_token.specs.ClassNumbers.{number};
ghost use Rattle.tu_token.specs.Rules.{body, r-block, r-statement};
ghost use Rattle.tu_token.specs.Table.{table};
ghost use Rattle.tu_tree.specs.StatementViews.{block_part, block_part_view};
ghost use Rattle.tu_reader.specs.Ahead.{weight, HasRoom};
ghost use Rattle.tu_reader.specs.Nests.{Nests};
ghost use Rattle.tu_reader.specs.Reads.{Reads, Begins};

use sqlite_items::Items;
use std::alloc::Global;
use tu_reader::{Cursor, Stop};
use tu_tree::{Block, BlockPart, Class};
use tu_types_reader::{bind, constant, type_declaration, variable};

/// The functions for the parts of a block. The blocks inside it are read by a function value.
#[derive(Clone, Copy)]
pub struct BlockReader<B> {
    pub alloc: Global,
    /// Above the weight of what is left.
    pub depth: u32,
    pub block: B,
}

/// Whether a statement begins with a token of the class.
pub fn begins_statement(class: Class) -> bool
    ensures { result ≡ is_among (number class) (first table (rule r-statement)) }
{
    matches!(
        class,
        Class::Name
            | Class::WordIf
            | Class::WordLoop
            | Class::WordFor
            | Class::WordCase
            | Class::WordBegin
            | Class::WordExit
            | Class::WordReturn
            | Class::WordResult
            | Class::WordAssert
            | Class::WordNew
            | Class::WordFree
            | Class::WordTag
            | Class::WordPut
            | Class::WordGet
            | Class::WordOpen
            | Class::WordClose
            | Class::WordQuit
    )
}

// Whether a part of a block begins with a token of the class.
fn begins_block_part(class: Class) -> bool
    ensures { result ≡ is_among (number class) (first table block_part) }
{
    match class {
        Class::WordConst | Class::WordVar | Class::WordType | Class::WordBind => true,
        _ => begins_statement(class),
    }
}

fn goes_on(tokens: &Cursor<'_>) -> bool
    ensures { Begins block_part tokens.now result }
{
    match tokens.class() {
        Some(class) => begins_block_part(class),
        None => false,
    }
}

impl<B: Fn(Global, &mut Cursor<'_>, u32) -> Result<Block, Stop>> BlockReader<B> {
    // A block inside the block.
    pub fn inner(&self, tokens: &mut Cursor<'_>) -> Result<Block, Stop>
        requires nests { Nests r-block self.now.depth (B.pre self.now.block) (B.post self.now.block) }
        requires room { HasRoom self.now.depth 40 tokens.old }
        ensures reads { Reads (rule r-block) (λ x. x) result tokens.old tokens.new }
        ensures less { IfOk result (λ _. weight tokens.new ≤ weight tokens.old + 1) }
    {
        (self.block)(self.alloc, tokens, self.depth)
    }

    /// A whole block.
    pub fn whole(&self, tokens: &mut Cursor<'_>) -> Result<Block, Stop>
        requires nests { Nests r-block self.now.depth (B.pre self.now.block) (B.post self.now.block) }
        requires room { HasRoom self.now.depth 27 tokens.old }
        ensures reads { Reads (rule r-block) (λ x. x) result tokens.old tokens.new }
        ensures less { IfOk result (λ _. weight tokens.new ≤ weight tokens.old + 1) }
    {
        let at = tokens.mark();
        let mut parts = Items::new(self.alloc);
        while goes_on(tokens) {
            let part = self.part(tokens)?;
            let semicolon = tokens.eat(Class::SignSemicolon);
            parts.push((part, semicolon))?;
        }
        Ok(Block { at, parts })
    }

    fn part(&self, tokens: &mut Cursor<'_>) -> Result<BlockPart, Stop>
        requires nests { Nests r-block self.now.depth (B.pre self.now.block) (B.post self.now.block) }
        requires room { HasRoom self.now.depth 26 tokens.old }
        ensures reads { Reads block_part block_part_view result tokens.old tokens.new }
        ensures less { IfOk result (λ _. weight tokens.new + 30 ≤ weight tokens.old) }
    {
        let Some(class) = tokens.class() else {
            return Err(Stop::Unexpected);
        };
        match class {
            Class::WordConst => {
                let part = constant(self.alloc, tokens, self.depth)?;
                Ok(BlockPart::Const(part))
            }
            Class::WordVar => {
                let part = variable(self.alloc, tokens, self.depth)?;
                Ok(BlockPart::Var(part))
            }
            Class::WordType => {
                let part = type_declaration(self.alloc, tokens, self.depth)?;
                Ok(BlockPart::Type(part))
            }
            Class::WordBind => {
                let part = bind(self.alloc, tokens, self.depth)?;
                Ok(BlockPart::Bind(part))
            }
            _ => {
                let part = self.statement(tokens)?;
                Ok(BlockPart::Statement(part))
            }
        }
    }
}

/// A block.
pub fn block(alloc: Global, tokens: &mut Cursor<'_>, depth: u32) -> Result<Block, Stop>
    requires { weight tokens.old + 28 ≤ depth }
    ensures reads { Reads (rule r-block) (λ x. x) result tokens.old tokens.new }
    ensures less { IfOk result (λ _. weight tokens.new ≤ weight tokens.old + 1) }
{
    BlockReader {
        alloc,
        depth: depth - 1,
        block,
    }
    .whole(tokens)
}
