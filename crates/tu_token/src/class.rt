/// What a lexeme is: a name, a number, a text, or one of the signs and reserved words.
#[derive(Clone, Copy, Debug, PartialEq, Eq)]
pub enum Class {
    Name,
    Number,
    Text,
    /// `:=`
    SignAssign,
    /// `=>`
    SignImplies,
    /// `<=`
    SignLessOrEqual,
    /// `>=`
    SignGreaterOrEqual,
    /// `..`
    SignRange,
    /// `**`
    SignPower,
    /// `not=`
    SignNotEqual,
    /// `+`
    SignPlus,
    /// `-`
    SignMinus,
    /// `*`
    SignStar,
    /// `<`
    SignLess,
    /// `>`
    SignGreater,
    /// `=`
    SignEqual,
    /// `(`
    SignLeftBracket,
    /// `)`
    SignRightBracket,
    /// `,`
    SignComma,
    /// `:`
    SignColon,
    /// `;`
    SignSemicolon,
    /// `.`
    SignDot,
    /// `all`
    WordAll,
    /// `and`
    WordAnd,
    /// `array`
    WordArray,
    /// `assert`
    WordAssert,
    /// `begin`
    WordBegin,
    /// `bind`
    WordBind,
    /// `body`
    WordBody,
    /// `boolean`
    WordBoolean,
    /// `case`
    WordCase,
    /// `close`
    WordClose,
    /// `collection`
    WordCollection,
    /// `const`
    WordConst,
    /// `decreasing`
    WordDecreasing,
    /// `div`
    WordDiv,
    /// `else`
    WordElse,
    /// `elsif`
    WordElsif,
    /// `end`
    WordEnd,
    /// `enum`
    WordEnum,
    /// `exit`
    WordExit,
    /// `export`
    WordExport,
    /// `false`
    WordFalse,
    /// `for`
    WordFor,
    /// `forward`
    WordForward,
    /// `free`
    WordFree,
    /// `function`
    WordFunction,
    /// `get`
    WordGet,
    /// `handler`
    WordHandler,
    /// `if`
    WordIf,
    /// `import`
    WordImport,
    /// `in`
    WordIn,
    /// `init`
    WordInit,
    /// `int`
    WordInt,
    /// `invariant`
    WordInvariant,
    /// `label`
    WordLabel,
    /// `loop`
    WordLoop,
    /// `mod`
    WordMod,
    /// `module`
    WordModule,
    /// `new`
    WordNew,
    /// `nil`
    WordNil,
    /// `not`
    WordNot,
    /// `of`
    WordOf,
    /// `opaque`
    WordOpaque,
    /// `open`
    WordOpen,
    /// `or`
    WordOr,
    /// `pointer`
    WordPointer,
    /// `post`
    WordPost,
    /// `pre`
    WordPre,
    /// `procedure`
    WordProcedure,
    /// `put`
    WordPut,
    /// `quit`
    WordQuit,
    /// `record`
    WordRecord,
    /// `result`
    WordResult,
    /// `return`
    WordReturn,
    /// `set`
    WordSet,
    /// `string`
    WordString,
    /// `tag`
    WordTag,
    /// `then`
    WordThen,
    /// `to`
    WordTo,
    /// `true`
    WordTrue,
    /// `type`
    WordType,
    /// `union`
    WordUnion,
    /// `var`
    WordVar,
    /// `when`
    WordWhen,
}
