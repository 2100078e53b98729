// Copies of what region code and linear code share.

ghost use Rattle.std.specs.Prelude.{◌≡◌, IfOk};

use crate::linear::Handler;
use ir_form::Plain;
use sqlite_items::Items;
use std::alloc::Global;
use tu_base::Memory;

/// A copy of numbers of values. It fails only for want of memory.
pub fn copied_values(alloc: Global, values: &Items<u32>) -> Result<Items<u32>, Memory>
    ensures { IfOk result (λ copy. copy ≡ values.now) }
{
    let copy = Items::from_slice(alloc, values.as_slice())?;
    Ok(copy)
}

/// A copy of what takes an exception. It fails only for want of memory.
pub fn copied_handler(alloc: Global, handler: &Handler) -> Result<Handler, Memory>
    ensures { IfOk result (λ copy. copy ≡ handler.now) }
{
    let to = copied_values(alloc, &handler.to)?;
    Ok(Handler {
        label: handler.label,
        mark: handler.mark,
        to,
    })
}

/// A copy of an operation. It fails only for want of memory.
pub fn copied_plain(alloc: Global, plain: &Plain) -> Result<Plain, Memory>
    ensures { IfOk result (λ copy. copy ≡ plain.now) }
{
    match plain {
        Plain::Constant { to, word } => Ok(Plain::Constant {
            to: *to,
            word: *word,
        }),
        Plain::Global { to, word } => Ok(Plain::Global {
            to: *to,
            word: *word,
        }),
        Plain::Heap { to } => Ok(Plain::Heap { to: *to }),
        Plain::Frame { to, word } => Ok(Plain::Frame {
            to: *to,
            word: *word,
        }),
        Plain::Text { to, byte } => Ok(Plain::Text {
            to: *to,
            byte: *byte,
        }),
        Plain::Compute {
            to,
            op,
            left,
            right,
        } => Ok(Plain::Compute {
            to: *to,
            op: *op,
            left: *left,
            right: *right,
        }),
        Plain::Load { to, width, at } => Ok(Plain::Load {
            to: *to,
            width: *width,
            at: *at,
        }),
        Plain::Store { width, at, from } => Ok(Plain::Store {
            width: *width,
            at: *at,
            from: *from,
        }),
        Plain::Ask { to, service } => Ok(Plain::Ask {
            to: *to,
            service: *service,
        }),
        Plain::Call {
            routine,
            arguments,
            to,
            line,
        } => {
            let arguments = copied_values(alloc, arguments)?;
            let to = copied_values(alloc, to)?;
            Ok(Plain::Call {
                routine: *routine,
                arguments,
                to,
                line: *line,
            })
        }
        Plain::Raise { kind, line } => Ok(Plain::Raise {
            kind: *kind,
            line: *line,
        }),
        Plain::Throw { kind, line } => Ok(Plain::Throw {
            kind: *kind,
            line: *line,
        }),
        Plain::Take { to, words, line } => Ok(Plain::Take {
            to: *to,
            words: *words,
            line: *line,
        }),
        Plain::Give { words } => Ok(Plain::Give { words: *words }),
    }
}
