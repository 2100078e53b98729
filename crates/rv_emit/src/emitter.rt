// The whole text.

ghost use Rattle.std.specs.Prelude.{◌≡◌, ◌<◌, ◌≤◌, ◌++◌, IfOk, OnOk, All, length, map};
ghost use Rattle.tu_base.specs.declared.limits.TheConstants.{MOST_TEXT_WORDS};
ghost use Rattle.ir_form.specs.Place.{IsPlace};
ghost use Rattle.rv_image.specs.Picture.{InRange};
ghost use Rattle.rv_runs.specs.Stands.{codes_of};
ghost use Rattle.rv_alloc.specs.Assigned.{placed_code};
ghost use Rattle.rv_alloc.specs.Renamed.{renamed};
ghost use Rattle.rv_layout.specs.Rooms.{room_bytes};
ghost use Rattle.rv_layout.specs.Calling.{entering, entering_length};
ghost use Rattle.rv_layout.specs.Words.{code_words, far_jump};
ghost use Rattle.rv_text.specs.Text.{around, addresses, routines_at, routines_words, text_of, image_of, place_of_image};
ghost use Rattle.rv_layout.specs.Ready.{IsSmall};
ghost use Rattle.rv_emit.specs.Ready.{AllSmall, IsReadyToEmit, AgreesWith, picture_of};
ghost use Rattle.rv_emit.specs.Placed.{frame_head, head_of_callee, number_in, routines_of};
ghost use Rattle.rv_emit.specs.Site.{addresses_of, label_place, word_count, IsSite};

use crate::frame::Frame;
use crate::lengths::frame_of;
use crate::site::{Labels, Site};
use crate::survey::survey;
use rv_alloc::Assigned;
use rv_isa::Text;
use rv_pieces::Output;
use rv_text::{image_agrees, image_is_allowed, text_is_measured};
use std::alloc::Global;
use tu_base::{Memory, TEXT_AT};

/// What an image is made of: the text, the entry in bytes from the text's start, and the number of
/// words of globals.
#[derive(Drop)]
pub struct Emitted {
    pub text: Text,
    pub entry: u32,
    pub globals: u32,
}

// Where the end is asked for, behind the opening.
const EXIT_AT: u32 = TEXT_AT + 44;

// What lies around the routines.
fn push_around(out: &mut Output, assigned: &Assigned, site: &Site) -> Result<(), Memory>
    requires site { IsSite (placed_code assigned.now) site.now }
    requires size { word_count (placed_code assigned.now) ≤ MOST_TEXT_WORDS }
    ensures { OnOk result (out.new ≡ out.old ++ codes_of (around (placed_code assigned.now))) }
{
    let main = assigned.linear().main;
    let frame = frame_of(assigned, main as usize);
    let first = site.entry(main) + 4 * entry_words(frame);
    out.push_opening(first_room(frame), EXIT_AT, first)?;
    out.push_ask(0)?;
    out.push_takes_words()
}

// Of a routine that may not be there.
fn first_room(frame: Option<Frame>) -> u32
    ensures { result ≡ room_bytes (head_of_callee frame.entry) }
{
    match frame {
        None => 0,
        Some(frame) => frame.room_bytes(),
    }
}

fn entry_words(frame: Option<Frame>) -> u32
    ensures is { result ≡ entering_length (head_of_callee frame.entry) }
    ensures bound { result ≤ 11 }
{
    match frame {
        None => 10,
        Some(frame) => frame.entering_length() as u32,
    }
}

impl Frame<'_> {
    fn push_routine(
        self,
        alloc: Global,
        out: &mut Output,
        assigned: &Assigned,
        site: &Site,
        labels: &Labels,
    ) -> Result<(), Memory>
        ensures words { OnOk result (out.new ≡ out.old ++ codes_of (entering (frame_head self.entry) ++ code_words (addresses_of site.now) (routines_of assigned.now) (frame_head self.entry) (far_jump (label_place labels.now)) (map (renamed (number_in self.entry)) self.entry.routine.now.code))) }
        ensures small { OnOk result (All IsSmall (map (renamed (number_in self.entry)) self.entry.routine.now.code)) }
    {
        self.push_entering(out)?;
        for instruction in self.routine.code.as_slice() {
            self.push_instruction(alloc, out, assigned, site, labels, instruction)?;
        }
        Ok(())
    }
}

fn push_routines(
    alloc: Global,
    out: &mut Output,
    assigned: &Assigned,
    site: &Site,
) -> Result<(), Memory>
    requires { IsSite (placed_code assigned.now) site.now }
    ensures words { let l = placed_code assigned.now in
        OnOk result (out.new ≡ out.old ++ codes_of (routines_words (addresses l) l.routines routines_at l.routines)) }
    ensures small { OnOk result (AllSmall (routines_of assigned.now)) }
{
    let mut k = 0;
    while let Some(frame) = frame_of(assigned, k) {
        frame.push_routine(alloc, out, assigned, site, &site.labels[k])?;
        k += 1;
    }
    Ok(())
}

// The text, all numbers in which are in range.
fn whole_text(alloc: Global, assigned: &Assigned) -> Result<Text, Memory>
    requires { word_count (placed_code assigned.now) ≤ MOST_TEXT_WORDS }
    ensures text { IfOk result (λ text. text ≡ text_of (placed_code assigned.now)) }
    ensures small { OnOk result (AllSmall (routines_of assigned.now)) }
    ensures bytes { OnOk result (All (λ b. b < 256) assigned.now.linear.texts) }
{
    let site = survey(alloc, assigned)?;
    let mut out = Output::new(alloc);
    push_around(&mut out, assigned, &site)?;
    push_routines(alloc, &mut out, assigned, &site)?;
    let bytes = assigned.linear().texts.as_slice();
    out.push_texts(bytes)?;
    Ok(out.into_text())
}

/// The parts of the image of assigned code, whose text has at most 16,777,216 words, as `text_words`
/// tells. The image of code that is ready does what the code means. It fails only for want of
/// memory.
pub fn emit(alloc: Global, assigned: &Assigned) -> Result<Emitted, Memory>
    requires { length (text_of (placed_code assigned.now)) ≤ MOST_TEXT_WORDS }
    ensures image { IfOk result (λ emitted. picture_of emitted ≡ image_of (placed_code assigned.now)) }
    ensures in_range { IfOk result (λ emitted. IsReadyToEmit assigned.now → InRange (picture_of emitted)) }
    ensures place { IfOk result (λ emitted. IsReadyToEmit assigned.now → IsPlace (place_of_image (placed_code assigned.now)) (length assigned.now.linear.texts)) }
    ensures agrees { IfOk result (λ emitted. IsReadyToEmit assigned.now → AgreesWith assigned.now (picture_of emitted)) }
{
    text_is_measured();
    image_is_allowed();
    image_agrees();
    let text = whole_text(alloc, assigned)?;
    Ok(Emitted {
        text,
        entry: 0,
        globals: assigned.linear().globals,
    })
}
