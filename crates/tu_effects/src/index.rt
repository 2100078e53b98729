// The answers of all texts, each with the texts that give it.
ghost use Rattle.std.specs.Prelude.{◌≡◌, ◌<◌, ◌≤◌, length, OnOk};
ghost use Rattle.tu_effects.specs.Questions.{asked};
ghost use Rattle.tu_effects.specs.Relations.{HasAdded, HasAddedAll};

use crate::Question;
use sqlite_items::Items;
use std::alloc::Global;
use tu_acts::Act;
use tu_base::Memory;
use tu_reach::Rows;

fn add_acts(
    alloc: Global,
    rows: &mut Rows,
    text: usize,
    acts: &[Act],
    question: Question,
) -> Result<(), Memory>
    requires { text < rows.old.texts }
    ensures texts { rows.new.texts ≡ rows.old.texts }
    ensures added { OnOk result (HasAdded rows.old.rows rows.new.rows text (asked question acts.now)) }
{
    for act in acts {
        if let Some(number) = question.number(act) {
            rows.add(alloc, number as usize, text)?;
        }
    }
    Ok(())
}

/// Adds each text to the rows of its answers.
pub fn add_texts(
    alloc: Global,
    rows: &mut Rows,
    texts: &[Items<Act>],
    question: Question,
) -> Result<(), Memory>
    requires { length texts.now ≤ rows.old.texts }
    ensures texts { rows.new.texts ≡ rows.old.texts }
    ensures added { OnOk result (HasAddedAll rows.old.rows rows.new.rows question texts.now) }
{
    for (text, acts) in texts.iter().enumerate() {
        add_acts(alloc, rows, text, acts.as_slice(), question)?;
    }
    Ok(())
}
