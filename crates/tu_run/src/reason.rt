// The notes of refusals.
ghost use Rattle.std.specs.Prelude.{◌≡◌, []};
ghost use Rattle.tu_run.specs.Reason.{lexical_text, scope_text, types_text, effects_text, overlap_text, refusal_text};

use crate::note::{ROOM, put, put_line};
use arrayvec::ArrayString;
use tu_check::{AliasError, EffectError, Refusal, TypeError};
use tu_scope::ScopeError;
use tu_token::LexError;

// Want of memory is no refusal, so this is never seen.
const NO_REASON: &str = "out of memory";

fn put_lexical(text: &mut ArrayString<ROOM>, error: LexError)
    requires { text.old.bytes ≡ [] }
    ensures { text.new.bytes ≡ lexical_text error }
{
    match error {
        LexError::BadByte(line) => put_line(text, line, "Lexical BadByte"),
        LexError::BadNumber(line) => put_line(text, line, "Lexical BadNumber"),
        LexError::OpenText(line) => put_line(text, line, "Lexical OpenText"),
        LexError::LongText(line) => put_line(text, line, "Lexical LongText"),
        LexError::OpenComment(line) => put_line(text, line, "Lexical OpenComment"),
        LexError::LongName(line) => put_line(text, line, "Lexical LongName"),
        LexError::TooMany(line) => put_line(text, line, "Lexical TooMany"),
        LexError::TooDeep(line) => put_line(text, line, "Lexical TooDeep"),
        LexError::Memory => put(text, NO_REASON),
    }
}

fn put_scope(text: &mut ArrayString<ROOM>, error: ScopeError)
    requires { text.old.bytes ≡ [] }
    ensures { text.new.bytes ≡ scope_text error }
{
    match error {
        ScopeError::Unknown(line) => put_line(text, line, "Scope Unknown"),
        ScopeError::NotImported(line) => put_line(text, line, "Scope NotImported"),
        ScopeError::NotExported(line) => put_line(text, line, "Scope NotExported"),
        ScopeError::Twice(line) => put_line(text, line, "Scope Twice"),
        ScopeError::BodyMissing(line) => put_line(text, line, "Scope BodyMissing"),
        ScopeError::WrongEnd(line) => put_line(text, line, "Scope WrongEnd"),
        ScopeError::Memory => put(text, NO_REASON),
    }
}

fn put_types(text: &mut ArrayString<ROOM>, error: TypeError)
    requires { text.old.bytes ≡ [] }
    ensures { text.new.bytes ≡ types_text error }
{
    match error {
        TypeError::Misplaced(line) => put_line(text, line, "Types Misplaced"),
        TypeError::Mismatch(line) => put_line(text, line, "Types Mismatch"),
        TypeError::NotConstant(line) => put_line(text, line, "Types NotConstant"),
        TypeError::OutOfRange(line) => put_line(text, line, "Types OutOfRange"),
        TypeError::NotVariable(line) => put_line(text, line, "Types NotVariable"),
        TypeError::BadCount(line) => put_line(text, line, "Types BadCount"),
        TypeError::TooLarge(line) => put_line(text, line, "Types TooLarge"),
        TypeError::NotBuilt(line) => put_line(text, line, "Types NotBuilt"),
        TypeError::Memory => put(text, NO_REASON),
    }
}

fn put_effects(text: &mut ArrayString<ROOM>, error: EffectError)
    requires { text.old.bytes ≡ [] }
    ensures { text.new.bytes ≡ effects_text error }
{
    match error {
        EffectError::FunctionVar(line) => put_line(text, line, "Effects FunctionVar"),
        EffectError::FunctionWrites(line) => put_line(text, line, "Effects FunctionWrites"),
        EffectError::FunctionTalks(line) => put_line(text, line, "Effects FunctionTalks"),
        EffectError::UnlistedWrite(line) => put_line(text, line, "Effects UnlistedWrite"),
        EffectError::Memory => put(text, NO_REASON),
    }
}

fn put_overlap(text: &mut ArrayString<ROOM>, error: AliasError)
    requires { text.old.bytes ≡ [] }
    ensures { text.new.bytes ≡ overlap_text error }
{
    match error {
        AliasError::SharedActual(line) => put_line(text, line, "Overlap SharedActual"),
        AliasError::ImportedActual(line) => put_line(text, line, "Overlap ImportedActual"),
        AliasError::HiddenRoot(line) => put_line(text, line, "Overlap HiddenRoot"),
        AliasError::ChangedBound(line) => put_line(text, line, "Overlap ChangedBound"),
        AliasError::Memory => put(text, NO_REASON),
    }
}

/// Puts the note of a refusal into an empty text.
pub fn put_refusal(text: &mut ArrayString<ROOM>, refusal: Refusal)
    requires { text.old.bytes ≡ [] }
    ensures { text.new.bytes ≡ refusal_text refusal }
{
    match refusal {
        Refusal::Size => put(text, "refused: Size"),
        Refusal::Lexical(error) => put_lexical(text, error),
        Refusal::Syntax(line) => put_line(text, line, "Syntax Unexpected"),
        Refusal::Scope(error) => put_scope(text, error),
        Refusal::Types(error) => put_types(text, error),
        Refusal::Effects(error) => put_effects(text, error),
        Refusal::Overlap(error) => put_overlap(text, error),
    }
}
