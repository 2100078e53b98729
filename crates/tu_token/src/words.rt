// The signs and the reserved words: the one table of their spellings, which the lexer reads by and flatten writes by.
ghost use Rattle.std.specs.Prelude.{◌≡◌, map, unwrap_or};
ghost use Rattle.tu_token.specs.ClassNumbers.{number};
ghost use Rattle.tu_token.specs.Spellings.{spelled_in, spelling, IsReadAsSpelled};
ghost use Rattle.tu_token.specs.Words.{double, entry, single, word_class};

use crate::Class;

/// The signs, and `not=`.
pub const SIGNS: [(&[u8], Class); 19] = [
    (b":=", Class::SignAssign),
    (b"=>", Class::SignImplies),
    (b"<=", Class::SignLessOrEqual),
    (b">=", Class::SignGreaterOrEqual),
    (b"..", Class::SignRange),
    (b"**", Class::SignPower),
    (b"not=", Class::SignNotEqual),
    (b"+", Class::SignPlus),
    (b"-", Class::SignMinus),
    (b"*", Class::SignStar),
    (b"<", Class::SignLess),
    (b">", Class::SignGreater),
    (b"=", Class::SignEqual),
    (b"(", Class::SignLeftBracket),
    (b")", Class::SignRightBracket),
    (b",", Class::SignComma),
    (b":", Class::SignColon),
    (b";", Class::SignSemicolon),
    (b".", Class::SignDot),
];

/// The reserved words.
pub const WORDS: [(&[u8], Class); 63] = [
    (b"all", Class::WordAll),
    (b"and", Class::WordAnd),
    (b"array", Class::WordArray),
    (b"assert", Class::WordAssert),
    (b"begin", Class::WordBegin),
    (b"bind", Class::WordBind),
    (b"body", Class::WordBody),
    (b"boolean", Class::WordBoolean),
    (b"case", Class::WordCase),
    (b"close", Class::WordClose),
    (b"collection", Class::WordCollection),
    (b"const", Class::WordConst),
    (b"decreasing", Class::WordDecreasing),
    (b"div", Class::WordDiv),
    (b"else", Class::WordElse),
    (b"elsif", Class::WordElsif),
    (b"end", Class::WordEnd),
    (b"enum", Class::WordEnum),
    (b"exit", Class::WordExit),
    (b"export", Class::WordExport),
    (b"false", Class::WordFalse),
    (b"for", Class::WordFor),
    (b"forward", Class::WordForward),
    (b"free", Class::WordFree),
    (b"function", Class::WordFunction),
    (b"get", Class::WordGet),
    (b"handler", Class::WordHandler),
    (b"if", Class::WordIf),
    (b"import", Class::WordImport),
    (b"in", Class::WordIn),
    (b"init", Class::WordInit),
    (b"int", Class::WordInt),
    (b"invariant", Class::WordInvariant),
    (b"label", Class::WordLabel),
    (b"loop", Class::WordLoop),
    (b"mod", Class::WordMod),
    (b"module", Class::WordModule),
    (b"new", Class::WordNew),
    (b"nil", Class::WordNil),
    (b"not", Class::WordNot),
    (b"of", Class::WordOf),
    (b"opaque", Class::WordOpaque),
    (b"open", Class::WordOpen),
    (b"or", Class::WordOr),
    (b"pointer", Class::WordPointer),
    (b"post", Class::WordPost),
    (b"pre", Class::WordPre),
    (b"procedure", Class::WordProcedure),
    (b"put", Class::WordPut),
    (b"quit", Class::WordQuit),
    (b"record", Class::WordRecord),
    (b"result", Class::WordResult),
    (b"return", Class::WordReturn),
    (b"set", Class::WordSet),
    (b"string", Class::WordString),
    (b"tag", Class::WordTag),
    (b"then", Class::WordThen),
    (b"to", Class::WordTo),
    (b"true", Class::WordTrue),
    (b"type", Class::WordType),
    (b"union", Class::WordUnion),
    (b"var", Class::WordVar),
    (b"when", Class::WordWhen),
];

fn class_in(mut table: &[(&[u8], Class)], word: &[u8]) -> Class
    ensures { result ≡ unwrap_or (entry (map (λ e. (e.0.now, e.1)) table.entry.now) word.now) Class.Name }
{
    while let [entry, rest @ ..] = table {
        if word == entry.0 {
            return entry.1;
        }
        table = rest;
    }
    Class::Name
}

/// What a word is: a reserved word, or else a name.
pub fn word_class(word: &[u8]) -> Class
    ensures { result ≡ word_class word.now }
{
    class_in(&WORDS, word)
}

fn spelling_in(table: &[(&'static [u8], Class)], class: Class) -> &'static [u8]
    ensures { result.now ≡ spelled_in (map (λ e. (e.0.now, e.1)) table.entry.now) (number class) }
{
    for entry in table {
        if entry.1 == class {
            return entry.0;
        }
    }
    b""
}

/// How a sign or word is spelled. For a name, a number or a text it is empty.
pub fn spelling(class: Class) -> &'static [u8]
    ensures { result.now ≡ spelling (number class) }
{
    match spelling_in(&SIGNS, class) {
        [] => spelling_in(&WORDS, class),
        sign => sign,
    }
}

/// The spelling of each sign and word is read as it.
pub fn spelling_is_read()
    ensures { IsReadAsSpelled }
{}
